//! Texts of files that aren't checked.
ghost use Rattle.std.specs.Prelude.{◌≡◌};
ghost use Rattle.abt_check.specs.Named as spec;

// Why the text of a file isn't checked.
#[derive(Clone, Copy)]
pub(crate) enum Unread {
    Read,
    TooLong,
    NotUtf8,
}

impl Unread {
    // The name of the fault, as `abt run` tells it.
    pub(crate) fn name(self) -> &'static str
        ensures { result.now ≡ spec.unread_name self }
    {
        match self {
            Unread::Read => "read",
            Unread::TooLong => "TooLong",
            Unread::NotUtf8 => "NotUtf8",
        }
    }

    // Why, in words.
    pub(crate) fn why(self) -> &'static str
        ensures { result.now ≡ spec.unread_why self }
    {
        match self {
            Unread::Read => "the file can't be read",
            Unread::TooLong => "the text has more than 16777216 octets",
            Unread::NotUtf8 => "the text isn't UTF-8",
        }
    }
}
