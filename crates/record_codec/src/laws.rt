//! What holds of records, whatever is done with them. Each of these functions does nothing: its contract is the law.

ghost use Rattle.std.specs.Prelude.{◌≡◌, ℕ, ◌<◌, List, ◌++◌, length, take};
ghost use Rattle.record_codec.specs.declared.record.Record.{Record as OneRecord};
ghost use Rattle.record_codec.specs.declared.fault.WireFault.TheVariants.{Cut};
ghost use Rattle.record_codec.specs.Records.{Begins, HasFault, IsRecord, spelling};

/// No spelling begins another: an input begins with one record at most.
pub fn no_spelling_begins_another()
    ensures { (a b : OneRecord) (x y : List ℕ) → IsRecord a → IsRecord b → spelling a ++ x ≡ spelling b ++ y → (a ≡ b) × (x ≡ y) }
{}

/// A front of a spelling that isn't all of it is cut.
pub fn front_is_cut()
    ensures { (r : OneRecord) (n : ℕ) → IsRecord r → n < length (spelling r) → HasFault (take n (spelling r)) Cut }
{}

/// What is written is read as it was, whatever follows it.
pub fn written_is_read()
    ensures { (r : OneRecord) (rest : List ℕ) → IsRecord r → Begins (spelling r ++ rest) r (length (spelling r)) }
{}
