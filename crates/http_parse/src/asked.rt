//! What a whole request asks for.

ghost use Rattle.std.specs.Prelude.{◌≡◌, ◌≤◌, ◌||◌, IfOk, Some, Ok, ℕ, codes};
ghost use Rattle.std.specs.Option.{option_copied};
ghost use Rattle.http_request.specs.declared.route.Route.TheVariants as route;
ghost use Rattle.http_request.specs.Target as target;
ghost use Rattle.http_request.specs.Fields as fields;
ghost use Rattle.http_request.specs.Target.{texts_of};
ghost use Rattle.http_request.specs.Ask as spec;
ghost use Rattle.http_request.specs.Ask.{asked_of, asked_at, asked_at_key, asked_at_bucket, asked_by_method, asked_else, asked_named, asked_props, asked_whole, known_tags, is_method, is_read, context_of};
ghost use Rattle.http_request.specs.Props as props;
ghost use Rattle.http_request.specs.declared.ask.What.TheVariants as asks;
ghost use Rattle.http_request.specs.declared.ask.Call.TheVariants as calls;
ghost use Rattle.http_request.specs.declared.ask.Change.TheVariants.{Unbound};
ghost use Rattle.http_request.specs.declared.ask.Form.TheVariants.{Text};
ghost use Rattle.http_parse.specs.Views.{request, quorums, FitsAsked, key_at, content_of, asked_put};
ghost use Rattle.http_request.specs.Fits.{FitsAsk, FitsWhat};
ghost use Rattle.key_state.specs.Limits.{IsKey};
ghost use Rattle.context_token.specs.Token.{Gives};

use crate::fields::accepts;
use crate::names::{decoded_at, has_names, is_hook_name, is_name, name_at};
use crate::props::changes_in;
use crate::query::{Asked, quorums_of, text_of, words_of};
use crate::routes::Routes;
use crate::whole::Request;
use context_token::TokenFault;
use dvv::Clock;
use http_request::{Ask, Call, Change, Form, Refusal, Route, What};
use key_state::{Bytes, Content, Key, MAX_BUCKET_BYTES, MAX_MEDIA_BYTES};
use std::alloc::{AllocError, Global};

/// A route of a key, and where the names of its bucket and of the key in it stand, among the pieces of its paths.
#[derive(Clone, Copy)]
pub(crate) struct KeyAt {
    pub(crate) route: Route,
    pub(crate) bucket: usize,
    pub(crate) key: usize,
}

const KEY: KeyAt = KeyAt {
    route: Route::Key,
    bucket: 2,
    key: 4,
};

const TYPED_KEY: KeyAt = KeyAt {
    route: Route::TypedKey,
    bucket: 4,
    key: 6,
};

const OLD_KEY: KeyAt = KeyAt {
    route: Route::OldKey,
    bucket: 2,
    key: 3,
};

/// What a method asks for, whatever the fields say: `HEAD` alone asks for no more than the head of its answer.
pub(crate) fn asked_by(method: &[u8], what: What) -> Ask
    ensures { result ≡ asked_by_method method.now what }
{
    Ask {
        what,
        head_only: method == b"HEAD".as_slice(),
        if_none_match: None,
    }
}

// What takes both hooks of a bucket away.
fn unbinds(bucket: Bytes) -> Call
    ensures { result ≡ calls.SetProps bucket Unbound Unbound }
{
    Call::SetProps {
        bucket,
        precommit: Change::Unbound,
        resolver: Change::Unbound,
    }
}

impl Request<'_> {
    /// What the request asks for, where each key has so many copies.
    pub(crate) fn ask(self, alloc: Global, routes: &Routes, copies: u32) -> Result<Ask, AllocError>
        requires some { 1 ≤ copies }
        requires few { copies ≤ 3 }
        ensures asked { IfOk result (λ ask. ask ≡ asked_whole copies (request self.entry)) }
        ensures fits { IfOk result (FitsAsk copies) }
    {
        let if_none_match = self.known_tags(alloc)?;
        let what = self.what(alloc, routes, copies)?;
        Ok(Ask {
            what,
            head_only: self.is(b"HEAD"),
            if_none_match,
        })
    }

    // The entity tags that the client of a read has.
    fn known_tags(self, alloc: Global) -> Result<Option<Bytes>, AllocError>
        ensures { IfOk result (λ tags. tags ≡ known_tags (request self.entry)) }
    {
        if !self.is_read() {
            return Ok(None);
        }
        match self.fields.if_none_match {
            Some(tags) => Ok(Some(Bytes::from_slice(alloc, tags)?)),
            None => Ok(None),
        }
    }

    // What is asked for, by whatever method.
    fn what(self, alloc: Global, routes: &Routes, copies: u32) -> Result<What, AllocError>
        requires some { 1 ≤ copies }
        requires few { copies ≤ 3 }
        ensures asked { IfOk result (λ what. what ≡ asked_of copies (request self.entry)) }
        ensures fits { IfOk result (FitsWhat copies) }
    {
        match routes.route_of(self.path) {
            None => Ok(What::Refused(Refusal::NoRoute)),
            Some(Route::Root) => Ok(self.ask_of_root()),
            Some(Route::Ping) => Ok(self.ask_of_ping()),
            Some(Route::Key) => self.ask_of_key(alloc, copies, KEY),
            Some(Route::TypedKey) => self.ask_of_key(alloc, copies, TYPED_KEY),
            Some(Route::OldKey) => self.ask_of_key(alloc, copies, OLD_KEY),
            Some(Route::Hook) => self.ask_of_hook(alloc),
            Some(Route::Props) => self.ask_of_bucket(alloc, copies, Route::Props, 2),
            Some(Route::TypedProps) => self.ask_of_bucket(alloc, copies, Route::TypedProps, 4),
        }
    }

    // Whether its method is this one.
    fn is(self, method: &[u8]) -> bool
        ensures { result ≡ is_method (request self.entry) method.now }
    {
        self.method == method
    }

    // Whether it reads.
    fn is_read(self) -> bool
        ensures { result ≡ is_read (request self.entry) }
    {
        self.is(b"GET") || self.is(b"HEAD")
    }

    // What a method that the route doesn't have asks of it.
    fn ask_else(self, route: Route) -> What
        ensures { result ≡ asked_else route (request self.entry) }
    {
        if self.is(b"OPTIONS") {
            What::Options(route)
        } else {
            What::Refused(Refusal::Method(route))
        }
    }

    fn ask_of_root(self) -> What
        ensures asked { (copies : ℕ) → result ≡ asked_at copies (Some route.Root) (request self.entry) }
        ensures fits { (copies : ℕ) → FitsWhat copies result }
    {
        if self.is_read() {
            What::Resources
        } else {
            self.ask_else(Route::Root)
        }
    }

    fn ask_of_ping(self) -> What
        ensures asked { (copies : ℕ) → result ≡ asked_at copies (Some route.Ping) (request self.entry) }
        ensures fits { (copies : ℕ) → FitsWhat copies result }
    {
        if self.is_read() {
            What::Ping
        } else {
            self.ask_else(Route::Ping)
        }
    }

    // What its method asks of a key.
    fn ask_of_key(self, alloc: Global, copies: u32, at: KeyAt) -> Result<What, AllocError>
        requires some { 1 ≤ copies }
        requires few { copies ≤ 3 }
        ensures asked { IfOk result (λ what. what ≡ asked_at_key copies at.route at.bucket at.key (request self.entry)) }
        ensures fits { IfOk result (FitsWhat copies) }
    {
        if self.is_of_key() {
            self.ask_of_query(alloc, copies, at)
        } else {
            Ok(self.ask_else(at.route))
        }
    }

    // Whether its method is one of a key.
    fn is_of_key(self) -> bool
        ensures { result ≡ (is_read (request self.entry) || is_method (request self.entry) (codes "PUT")
            || is_method (request self.entry) (codes "POST") || is_method (request self.entry) (codes "DELETE")) }
    {
        self.is_read() || self.is(b"PUT") || self.is(b"POST") || self.is(b"DELETE")
    }

    // What is asked of a key by one of its methods.
    fn ask_of_query(self, alloc: Global, copies: u32, at: KeyAt) -> Result<What, AllocError>
        requires some { 1 ≤ copies }
        requires few { copies ≤ 3 }
        ensures asked { IfOk result (λ what. what ≡ asked_named (target.quorums_of copies (texts_of self.entry.query.now)) (key_at at self.entry.path.now) (request self.entry)) }
        ensures fits { IfOk result (FitsWhat copies) }
    {
        let words = words_of(alloc, self.query.as_bytes())?;
        match quorums_of(&words, copies) {
            Some(asked) => self.ask_of_names(alloc, at, asked, text_of(&words.vtag)),
            None => Ok(What::Refused(Refusal::Query)),
        }
    }

    // What is asked of the key that the path names, where the query is in order.
    fn ask_of_names(
        self,
        alloc: Global,
        at: KeyAt,
        asked: Asked,
        tag: Option<&str>,
    ) -> Result<What, AllocError>
        requires { option_copied tag ≡ target.asked_for (codes "vtag") (texts_of self.query.now) }
        ensures asked { IfOk result (λ what. what ≡ asked_named (Some (quorums asked)) (key_at at self.entry.path.now) (request self.entry)) }
        ensures fits { (copies : ℕ) → FitsAsked copies asked → IfOk result (FitsWhat copies) }
    {
        let key = self.key(alloc, at)?;
        if !has_names(&key) {
            return Ok(What::Refused(Refusal::BadName));
        }
        if self.is_read() {
            self.get_of_key(alloc, key, asked, tag)
        } else {
            self.put_of_key(alloc, key, asked)
        }
    }

    // The key that the path names.
    fn key(self, alloc: Global, at: KeyAt) -> Result<Key, AllocError>
        ensures { IfOk result (λ key. key ≡ key_at at self.entry.path.now) }
    {
        let bucket = decoded_at(alloc, self.path, at.bucket)?;
        let key = decoded_at(alloc, self.path, at.key)?;
        Key::new(alloc, bucket.as_slice(), key.as_slice())
    }

    // A read of the key.
    fn get_of_key(
        self,
        alloc: Global,
        key: Key,
        asked: Asked,
        tag: Option<&str>,
    ) -> Result<What, AllocError>
        ensures asked { IfOk result (λ what. what ≡ asks.Call (calls.Get key asked.read asked.at)
            (spec.form_of (option_copied tag.entry) (fields.accepts (codes "accept") (codes "multipart/mixed") (request self.entry).pairs))) }
        ensures fits { (copies : ℕ) → IsKey key → FitsAsked copies asked → IfOk result (FitsWhat copies) }
    {
        let form = self.form(alloc, tag)?;
        let call = Call::Get {
            key,
            r: asked.read,
            at: asked.at,
        };
        Ok(What::Call(call, form))
    }

    // A write of the key, as one who had seen what the context says.
    fn put_of_key(self, alloc: Global, key: Key, asked: Asked) -> Result<What, AllocError>
        ensures asked { IfOk result (λ what. what ≡ asked_put key (quorums asked) (request self.entry) (context_of (request self.entry).pairs)) }
        ensures fits { (copies : ℕ) → IsKey key → FitsAsked copies asked → IfOk result (FitsWhat copies) }
    {
        match self.context(alloc) {
            Ok(seen) => self.put_seen(alloc, key, asked, seen),
            Err(TokenFault::NoMemory) => Err(AllocError),
            Err(fault) => Ok(What::Refused(Refusal::Token(fault))),
        }
    }

    // A write of the key, as one who had seen what the clock counts.
    fn put_seen(
        self,
        alloc: Global,
        key: Key,
        asked: Asked,
        seen: Clock,
    ) -> Result<What, AllocError>
        ensures asked { IfOk result (λ what. what ≡ asked_put key (quorums asked) (request self.entry) (Ok seen)) }
        ensures fits { (copies : ℕ) → IsKey key → FitsAsked copies asked → IfOk result (FitsWhat copies) }
    {
        match self.content(alloc)? {
            Some(content) => {
                let call = Call::Put {
                    key,
                    seen,
                    content,
                    w: asked.write,
                    at: asked.at,
                };
                Ok(What::Call(call, Form::Text))
            }
            None => Ok(What::Refused(Refusal::BadType)),
        }
    }

    // How a read is shown.
    fn form(self, alloc: Global, tag: Option<&str>) -> Result<Form, AllocError>
        ensures { IfOk result (λ form. form ≡ spec.form_of (option_copied tag.entry) (fields.accepts (codes "accept") (codes "multipart/mixed") (request self.entry).pairs)) }
    {
        if let Some(tag) = tag {
            return Ok(Form::One(Bytes::from_slice(alloc, tag.as_bytes())?));
        }
        if accepts(self.fields.accept, b"multipart/mixed") {
            Ok(Form::Parts)
        } else {
            Ok(Form::Text)
        }
    }

    // What the writer had seen.
    fn context(self, alloc: Global) -> Result<Clock, TokenFault>
        ensures { Gives result (context_of (request self.entry).pairs) }
    {
        match self.fields.context {
            Some(text) => context_token::read_bytes(alloc, text),
            None => Ok(Clock::new(alloc)),
        }
    }

    // What is written; nothing where its media type is empty or too long.
    fn content(self, alloc: Global) -> Result<Option<Content>, AllocError>
        ensures { IfOk result (λ content. content ≡ content_of (request self.entry)) }
    {
        if self.is(b"DELETE") {
            return Ok(Some(Content::Tombstone));
        }
        let media = self
            .fields
            .content_type
            .unwrap_or(b"application/octet-stream");
        if !is_name(MAX_MEDIA_BYTES, media) {
            return Ok(None);
        }
        let media = self.types.bytes_of(alloc, media)?;
        let bytes = Bytes::from_slice(alloc, self.body)?;
        Ok(Some(Content::Value { media, bytes }))
    }

    fn ask_of_hook(self, alloc: Global) -> Result<What, AllocError>
        ensures asked { (copies : ℕ) → IfOk result (λ what. what ≡ asked_at copies (Some route.Hook) (request self.entry)) }
        ensures fits { (copies : ℕ) → IfOk result (FitsWhat copies) }
    {
        let put = self.is(b"PUT");
        if !(put || self.is(b"DELETE")) {
            return Ok(self.ask_else(Route::Hook));
        }
        let name = name_at(alloc, self.path, 2)?;
        if !is_hook_name(name.as_slice()) {
            return Ok(What::Refused(Refusal::BadName));
        }
        if put {
            self.install(alloc, name)
        } else {
            Ok(What::Call(Call::Remove { name }, Form::Text))
        }
    }

    // What installs the body under a name.
    fn install(self, alloc: Global, name: Bytes) -> Result<What, AllocError>
        ensures { IfOk result (λ what. what ≡ asks.Call (calls.Install name self.entry.body.now) Text) }
    {
        let image = Bytes::from_slice(alloc, self.body)?;
        Ok(What::Call(Call::Install { name, image }, Form::Text))
    }

    // What its method asks of the bucket at a piece of the path.
    fn ask_of_bucket(
        self,
        alloc: Global,
        copies: u32,
        route: Route,
        piece: usize,
    ) -> Result<What, AllocError>
        ensures asked { IfOk result (λ what. what ≡ asked_at_bucket copies route piece (request self.entry)) }
        ensures fits { IfOk result (FitsWhat copies) }
    {
        if !self.is_of_bucket() {
            return Ok(self.ask_else(route));
        }
        let bucket = name_at(alloc, self.path, piece)?;
        if !is_name(MAX_BUCKET_BYTES, bucket.as_slice()) {
            return Ok(What::Refused(Refusal::BadName));
        }
        if self.is_read() {
            Ok(What::Call(Call::ReadProps { bucket }, Form::Text))
        } else if self.is(b"DELETE") {
            Ok(What::Call(unbinds(bucket), Form::Text))
        } else {
            self.set_props(alloc, copies, bucket)
        }
    }

    // Whether its method is one of a bucket.
    fn is_of_bucket(self) -> bool
        ensures { result ≡ (is_read (request self.entry) || is_method (request self.entry) (codes "PUT") || is_method (request self.entry) (codes "DELETE")) }
    {
        self.is_read() || self.is(b"PUT") || self.is(b"DELETE")
    }

    // What sets the properties of a bucket.
    fn set_props(self, alloc: Global, copies: u32, bucket: Bytes) -> Result<What, AllocError>
        ensures { IfOk result (λ what. what ≡ asked_props bucket (props.changes_in copies self.entry.body.now)) }
    {
        match changes_in(alloc, copies, self.body)? {
            Ok((precommit, resolver)) => {
                let call = Call::SetProps {
                    bucket,
                    precommit,
                    resolver,
                };
                Ok(What::Call(call, Form::Text))
            }
            Err(refusal) => Ok(What::Refused(refusal)),
        }
    }
}
