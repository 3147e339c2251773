// The names of the forms.
ghost use Rattle.std.specs.Prelude.{◌≡◌};

// What a line begins with: it says which form the line has.
#[derive(Clone, Copy)]
pub(crate) enum FormName {
    Order,
    Notice,
    Open,
    Watch,
    Link,
    End,
    Bare,
}

impl FormName {
    ghost use Rattle.text.specs.Names.{name};

    // The names of a book's lines.
    pub(crate) const ALL: [FormName; 7] = [
        FormName::Order,
        FormName::Notice,
        FormName::Open,
        FormName::Watch,
        FormName::Link,
        FormName::End,
        FormName::Bare,
    ];

    // The names of what can be carried out.
    pub(crate) const RULES: [FormName; 2] = [FormName::Order, FormName::Notice];

    // The bracket, the name, and the blank that stands behind it unless numbers may be missing.
    pub(crate) fn bytes(self) -> &'static [u8]
        ensures { result.now ≡ name self }
    {
        match self {
            FormName::Order => b"(order ",
            FormName::Notice => b"(notice ",
            FormName::Open => b"(open",
            FormName::Watch => b"(watch ",
            FormName::Link => b"(link ",
            FormName::End => b"(end ",
            FormName::Bare => b"(bare ",
        }
    }
}
