//! The properties that a body sets (Riak KV, bucket properties; JSON, RFC 8259).
//!
//! The body is an object with an object `props`. Of its members `precommit` and `resolver` are a hook's name or null, and
//! keep what is bound where they are absent; `allow_mult`, `last_write_wins`, `n_val` and `postcommit` are as they are or absent; all
//! others are passed over.

ghost use Rattle.std.specs.Prelude.{◌≡◌, ℕ, List, option_map, Option, Some, None, IfOk};
ghost use Rattle.serde_json.specs.Data.{Members, object};
ghost use Rattle.serde_json.specs.View.{view};
ghost use Rattle.http_request.specs.Props as spec;

use http_request::{Change, Property, Refusal};
use key_state::Bytes;
use serde_json::Value;
use std::alloc::{AllocError, Global};

/// The changes that a body asks for, the pre-commit hook's and then the resolver's, or why it asks for none, where each key has so many
/// copies. The error is want of memory.
pub(crate) fn changes_in(
    alloc: Global,
    copies: u32,
    body: &[u8],
) -> Result<Result<(Change, Change), Refusal>, AllocError>
    ensures { IfOk result (λ o. o ≡ spec.changes_in copies body.now) }
{
    match Value::from_slice(alloc, body) {
        Ok(value) => match value.get("props") {
            None => Ok(Err(Refusal::BadProps)),
            Some(props) => changes_of(alloc, copies, props),
        },
        Err(e) => {
            if e.is_memory() {
                Err(AllocError)
            } else {
                Ok(Err(Refusal::BadProps))
            }
        }
    }
}

// The changes that an object of properties asks for.
fn changes_of(
    alloc: Global,
    copies: u32,
    props: &Value,
) -> Result<Result<(Change, Change), Refusal>, AllocError>
    ensures { IfOk result (λ o. o ≡ spec.changes_of copies (view props.now)) }
{
    if !props.is_object() {
        return Ok(Err(Refusal::BadProps));
    }
    if let Some(property) = fixed_in(copies, props) {
        return Ok(Err(Refusal::FixedProperty(property)));
    }
    let precommit = change_of(alloc, props.get("precommit"))?;
    let resolver = change_of(alloc, props.get("resolver"))?;
    match (precommit, resolver) {
        (Some(p), Some(r)) => Ok(Ok((p, r))),
        _ => Ok(Err(Refusal::BadProps)),
    }
}

// The first property that an object wants otherwise than it is.
fn fixed_in(copies: u32, props: &Value) -> Option<Property>
    ensures { (members : Members) → view props.now ≡ object members → result ≡ spec.fixed_in copies members }
{
    if !allows_siblings(props.get("allow_mult")) {
        Some(Property::AllowMult)
    } else if !keeps_siblings(props.get("last_write_wins")) {
        Some(Property::LastWriteWins)
    } else if !has_copies(copies, props.get("n_val")) {
        Some(Property::NVal)
    } else if !runs_nothing(props.get("postcommit")) {
        Some(Property::PostCommit)
    } else {
        None
    }
}

// Siblings are always allowed.
fn allows_siblings(member: Option<&Value>) -> bool
    ensures { result ≡ spec.allows_siblings (option_map (λ v. view v.now) member.entry) }
{
    match member {
        None => true,
        Some(value) => value.as_bool().unwrap_or(false),
    }
}

// The last write never wins.
fn keeps_siblings(member: Option<&Value>) -> bool
    ensures { result ≡ spec.keeps_siblings (option_map (λ v. view v.now) member.entry) }
{
    match member {
        None => true,
        Some(value) => !value.as_bool().unwrap_or(true),
    }
}

// There are so many copies.
fn has_copies(copies: u32, member: Option<&Value>) -> bool
    ensures { result ≡ spec.has_copies copies (option_map (λ v. view v.now) member.entry) }
{
    match member {
        None => true,
        Some(value) => match value.as_u64() {
            None => false,
            Some(n) => n == copies as u64,
        },
    }
}

// Nothing runs after a write.
fn runs_nothing(member: Option<&Value>) -> bool
    ensures { result ≡ spec.runs_nothing (option_map (λ v. view v.now) member.entry) }
{
    match member {
        None | Some(Value::Null) => true,
        Some(_) => false,
    }
}

// The change that a member asks for.
fn change_of(alloc: Global, member: Option<&Value>) -> Result<Option<Change>, AllocError>
    ensures { IfOk result (λ o. o ≡ spec.change_of (option_map (λ v. view v.now) member.entry)) }
{
    match member {
        None => Ok(Some(Change::Kept)),
        Some(Value::Null) => Ok(Some(Change::Unbound)),
        Some(Value::String(name)) => {
            Ok(Some(Change::Bound(Bytes::from_slice(alloc, name.as_bytes())?)))
        }
        Some(_) => Ok(None),
    }
}
