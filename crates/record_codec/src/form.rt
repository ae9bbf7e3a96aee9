//! In how many bytes a record has its place.

ghost use Rattle.std.specs.Prelude.{◌≡◌, ◌≤◌, IfNone, IfSome};
ghost use Rattle.std.specs.Int.{byte_len};
ghost use Rattle.record_codec.specs.Records.{form_of, mark, width_of};
ghost use Rattle.record_codec.specs.declared.form.Form.{Form as OneForm};

/// The least place that four bytes don't hold.
pub(crate) const FIRST_WIDE: u64 = 1 << 32;

/// In how many bytes a record has its place. Each place has one form.
#[derive(Clone, Copy, Debug, PartialEq, Eq)]
pub(crate) enum Form {
    /// In four bytes, behind `DVR1`: below 4,294,967,296.
    Narrow,
    /// In eight bytes, behind `DVR2`: from 4,294,967,296 on.
    Wide,
}

impl Form {
    /// The form of a record with this place.
    pub(crate) fn of(at: u64) -> Form
        ensures { result ≡ form_of at }
    {
        if at < FIRST_WIDE {
            Form::Narrow
        } else {
            Form::Wide
        }
    }

    /// The form whose records begin with these bytes.
    pub(crate) fn marked(head: [u8; 4]) -> Option<Form>
        ensures some { IfSome result (λ form. head ≡ mark form) }
        ensures none { IfNone result ((form : OneForm) → head ≡ mark form → ⊥) }
    {
        if head == Form::Narrow.mark() {
            Some(Form::Narrow)
        } else if head == Form::Wide.mark() {
            Some(Form::Wide)
        } else {
            None
        }
    }

    /// The first bytes of its records.
    pub(crate) fn mark(self) -> [u8; 4]
        ensures { result ≡ mark self }
    {
        match self {
            Form::Narrow => *b"DVR1",
            Form::Wide => *b"DVR2",
        }
    }

    /// How many bytes a place has.
    pub(crate) fn place_len(self) -> usize
        ensures exact { result ≡ byte_len (width_of self) }
        ensures few { result ≤ 8 }
    {
        match self {
            Form::Narrow => 4,
            Form::Wide => 8,
        }
    }
}
