// What operations refuse: document 01, "What each operation refuses, in order", and document 02.
#![tactic(auto)]

ghost use Rattle.std.specs.Prelude.{◌≡◌};
ghost use Rattle.refusals.specs.Refusals.{number, code_of};

// Why an operation does nothing. Each has a number, by which it is told.
#[derive(Clone, Copy, Debug, PartialEq, Eq)]
pub enum Refusal {
    // Reading and writing a plan.
    WrongLength,
    WrongEdition,
    WrongCount,
    WrongOffset,
    WrongTask,
    Repeated,
    WrongName,
    WrongSection,
    SectionsAbove,
    NoRoom,
    // Calls and questions.
    UnknownTag,
    UnknownResource,
    Undeclared,
    Local,
    AlreadyInLine,
    NotHeld,
    NothingGlobal,
    UnknownProcessor,
    Unsound,
    NotWaiting,
    // A state that is lent as an image.
    ShortImage,
    UnsoundImage,
    // The printing program.
    NoCall,
    LeftOver,
}

impl Refusal {
    // The number of a refusal: 1 and more.
    pub fn number(self) -> u8
        ensures { result ≡ number self }
    {
        match self {
            Refusal::WrongLength => 1,
            Refusal::WrongEdition => 2,
            Refusal::WrongCount => 3,
            Refusal::WrongOffset => 4,
            Refusal::WrongTask => 5,
            Refusal::Repeated => 6,
            Refusal::WrongName => 7,
            Refusal::WrongSection => 8,
            Refusal::SectionsAbove => 9,
            Refusal::NoRoom => 10,
            Refusal::UnknownTag => 11,
            Refusal::UnknownResource => 12,
            Refusal::Undeclared => 13,
            Refusal::Local => 14,
            Refusal::AlreadyInLine => 15,
            Refusal::NotHeld => 16,
            Refusal::NothingGlobal => 17,
            Refusal::UnknownProcessor => 18,
            Refusal::Unsound => 19,
            Refusal::NotWaiting => 23,
            Refusal::ShortImage => 24,
            Refusal::UnsoundImage => 25,
            Refusal::NoCall => 21,
            Refusal::LeftOver => 22,
        }
    }
}

// The number of a result: that of its refusal, 0 for none.
pub fn code<T>(answer: &Result<T, Refusal>) -> u8
    ensures { result ≡ code_of answer.now }
{
    match answer {
        Ok(_) => 0,
        Err(refusal) => refusal.number(),
    }
}
