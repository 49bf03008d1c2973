//! The key words and marks of Mermaid's sequence diagrams. Capital and small letters count as the
//! same in all of them.

ghost use Rattle.std.specs.Prelude.{◌≡◌, ◌≤◌, IsTrue, length, drop, find};
ghost use Rattle.msc_mermaid.specs.Keys.{all_keys, are_spelled, begin_so, key_of, mark_text};
ghost use Rattle.msc_mermaid.specs.Keys.{spelling};

/// A word with which a statement may begin.
#[derive(Clone, Copy)]
pub(crate) enum Key {
    Create,
    Participant,
    Actor,
    Destroy,
    Loop,
    Alt,
    Opt,
    Par,
    ParOver,
    Critical,
    Break,
    Rect,
    Box,
    Else,
    And,
    Option,
    End,
    Note,
    Activate,
    Deactivate,
    Autonumber,
    Links,
    Link,
    Properties,
    Details,
    Title,
    Over,
    Off,
}

/// A text within statements, or at the ends of what is left out.
#[derive(Clone, Copy)]
pub(crate) enum Mark {
    Comment,
    Directive,
    DirectiveEnd,
    Description,
    DescriptionEnd,
    Colon,
    LeftOf,
    RightOf,
    Over,
    Off,
    Config,
    As,
    Wrap,
    NoWrap,
    Centre,
    DashSlash,
    DashBackslash,
    DashBar,
    AccTitle,
    AccDescr,
    Shown,
}

/// Whether the bytes are this text.
pub fn are_spelled(bytes: &[u8], text: &[u8]) -> bool
    ensures { result ≡ are_spelled bytes.now text.now }
{
    bytes.eq_ignore_ascii_case(text)
}

/// Whether the bytes begin with this text.
pub fn begin_so(bytes: &[u8], text: &[u8]) -> bool
    ensures value { result ≡ begin_so bytes.now text.now }
    ensures room { IsTrue result → length text.now ≤ length bytes.now }
{
    text.len() <= bytes.len() && are_spelled(&bytes[..text.len()], text)
}

impl Key {
    /// Each of them once.
    const ALL: [Key; 28] = [
        Key::Create,
        Key::Participant,
        Key::Actor,
        Key::Destroy,
        Key::Loop,
        Key::Alt,
        Key::Opt,
        Key::Par,
        Key::ParOver,
        Key::Critical,
        Key::Break,
        Key::Rect,
        Key::Box,
        Key::Else,
        Key::And,
        Key::Option,
        Key::End,
        Key::Note,
        Key::Activate,
        Key::Deactivate,
        Key::Autonumber,
        Key::Links,
        Key::Link,
        Key::Properties,
        Key::Details,
        Key::Title,
        Key::Over,
        Key::Off,
    ];

    /// The spelling of the word.
    fn spelling(self) -> &'static [u8]
        ensures { result.now ≡ spelling self }
    {
        match self {
            Key::Create => b"create",
            Key::Participant => b"participant",
            Key::Actor => b"actor",
            Key::Destroy => b"destroy",
            Key::Loop => b"loop",
            Key::Alt => b"alt",
            Key::Opt => b"opt",
            Key::Par => b"par",
            Key::ParOver => b"par_over",
            Key::Critical => b"critical",
            Key::Break => b"break",
            Key::Rect => b"rect",
            Key::Box => b"box",
            Key::Else => b"else",
            Key::And => b"and",
            Key::Option => b"option",
            Key::End => b"end",
            Key::Note => b"note",
            Key::Activate => b"activate",
            Key::Deactivate => b"deactivate",
            Key::Autonumber => b"autonumber",
            Key::Links => b"links",
            Key::Link => b"link",
            Key::Properties => b"properties",
            Key::Details => b"details",
            Key::Title => b"title",
            Key::Over => b"over",
            Key::Off => b"off",
        }
    }

    /// The first of these words that equals the bytes.
    fn among(bytes: &[u8], keys: &[Key]) -> Option<Key>
        ensures { result ≡ find (λ k. are_spelled bytes.now (spelling k)) keys.now }
    {
        for key in keys {
            if are_spelled(bytes, key.spelling()) {
                return Some(*key);
            }
        }
        None
    }

    /// The key word that equals the bytes.
    pub(crate) fn of(bytes: &[u8]) -> Option<Key>
        ensures { result ≡ key_of bytes.now }
    {
        Key::among(bytes, &Key::ALL)
    }

    /// Whether the bytes begin with this word.
    pub(crate) fn begins(self, bytes: &[u8]) -> bool
        ensures value { result ≡ begin_so bytes.now (spelling self) }
        ensures room { IsTrue result → length (spelling self) ≤ length bytes.now }
    {
        begin_so(bytes, self.spelling())
    }

    /// The number of bytes of its text.
    pub(crate) fn length(self) -> usize
        ensures { result ≡ length (spelling self) }
    {
        self.spelling().len()
    }
}

impl Mark {
    /// Its text.
    fn text(self) -> &'static [u8]
        ensures { result.now ≡ mark_text self }
    {
        match self {
            Mark::Comment => b"%%",
            Mark::Directive => b"%%{",
            Mark::DirectiveEnd => b"}%%",
            Mark::Description => b"{",
            Mark::DescriptionEnd => b"}",
            Mark::Colon => b":",
            Mark::LeftOf => b"left of",
            Mark::RightOf => b"right of",
            Mark::Over => b"over",
            Mark::Off => b"off",
            Mark::Config => b"@{",
            Mark::As => b"as",
            Mark::Wrap => b"wrap:",
            Mark::NoWrap => b"nowrap:",
            Mark::Centre => b"()",
            Mark::DashSlash => b"-/",
            Mark::DashBackslash => b"-\\",
            Mark::DashBar => b"-|",
            Mark::AccTitle => b"accTitle",
            Mark::AccDescr => b"accDescr",
            Mark::Shown => b"alias",
        }
    }

    /// Whether the bytes begin with it.
    pub(crate) fn begins(self, bytes: &[u8]) -> bool
        ensures value { result ≡ begin_so bytes.now (mark_text self) }
        ensures room { IsTrue result → length (mark_text self) ≤ length bytes.now }
    {
        begin_so(bytes, self.text())
    }

    /// The number of bytes of its text.
    pub(crate) fn length(self) -> usize
        ensures { result ≡ length (mark_text self) }
    {
        self.text().len()
    }

    /// The bytes without as many at the front as this text has.
    pub(crate) fn behind(self, bytes: &[u8]) -> &[u8]
        ensures { result.now ≡ drop (length (mark_text self)) bytes.now }
    {
        let length = self.length();
        if length > bytes.len() {
            return &[];
        }
        &bytes[length..]
    }
}
