// The words of document 01 as types: what the code answers is what the definitions beside this file speak of.
#![tactic(auto)]

ghost use Rattle.std.specs.Prelude.{◌≡◌};
ghost use Rattle.rules.specs.declared.Refusal.TheVariants.{Unresolved};

// The kinds of records (LLVM's relocation document). They stay numbers: a record holds any, and `call_compute::record_write`,
// `value_match::field_value` and the definitions behind them (`relocated`, `field_value`) answer for every one.
pub const FIELD_BYTE_OFFSET: u32 = 0;

pub const FIELD_BYTE_SIZE: u32 = 1;

pub const FIELD_EXISTS: u32 = 2;

pub const FIELD_SIGNED: u32 = 3;

pub const FIELD_LSHIFT: u32 = 4;

pub const FIELD_RSHIFT: u32 = 5;

pub const TYPE_ID_LOCAL: u32 = 6;

pub const TYPE_ID_TARGET: u32 = 7;

pub const TYPE_EXISTS: u32 = 8;

pub const TYPE_SIZE: u32 = 9;

pub const ENUM_VARIANT_EXISTS: u32 = 10;

pub const ENUM_VARIANT_VALUE: u32 = 11;

// How many types a loop over types looks at, as in the crate.
pub const MAX_RESOLVE_DEPTH: u32 = 32;

// Nested steps of one type compatibility check (section 2).
pub const MAX_STEPS: u32 = 32;

// Unnamed levels of one member search (section 2).
pub const MAX_LEVELS: u32 = 32;

// Parts of a target's access, as in the crate: with as many no member and no element is tried.
pub const MAX_SPEC_LEN: u32 = 64;

// Why a record is refused (section 3). Cases that hold nothing return the record.
#[derive(Clone, Copy)]
pub enum Refusal {
    // the kind
    KindTooBig(u32),
    NotInFunction,
    // the successor's index
    NoSuccessor(u64),
    BadAccess,
    // index, count
    IndexTooBig(u64, u32),
    WrongKind,
    // the first conflicting id, how many
    Conflict(u32, u64),
    // the candidate's id
    MaximumNesting(u32),
    // the reason
    BadInstruction(u32),
    NoMatch,
    Unresolved,
    TooManyParts,
    BitsTooBig,
    TooDeep,
}

// Why a type has no size.
#[derive(Clone, Copy)]
pub enum Why {
    ChainTooLong,
    KindWithoutSize,
    ProductTooBig,
}

// A type without a size: why, and the id where it showed.
#[derive(Clone, Copy)]
pub struct Unsized {
    pub why: Why,
    pub id: u32,
}

// A record that needs the size is refused.
impl From<Unsized> for Refusal {
    ghost from_gives = { λ _ r. r ≡ Unresolved };

    fn from(_unsized: Unsized) -> Refusal {
        Refusal::Unresolved
    }
}

// A step of an access: the named member `index` of the composite type `typ`, or the element `index` of type `typ`.
#[derive(Clone, Copy, Default)]
pub struct Accessor {
    pub typ: u32,
    pub index: u64,
    pub named: bool,
}

// A step of the local walk, to a type at a bit offset: by an accessor, or within an unnamed member by none.
#[derive(Clone, Copy)]
pub struct Step {
    pub by: Option<Accessor>,
    pub typ: u32,
    pub bits: u64,
}

// A value, with what is compared when a load or store is patched: the size of what lies at an offset, and its type, where it
// has one.
#[derive(Clone, Copy)]
pub struct Value {
    pub number: u64,
    pub size: u32,
    pub typ: Option<u32>,
}

// How a field is loaded: from a byte offset, this many bytes, of which it takes this many bits.
#[derive(Clone, Copy)]
pub struct Load {
    pub offset: u64,
    pub size: u64,
    pub width: u64,
}

// A place in the target: the type come to, the accessor that led there, bits, and how many parts the access has by then.
#[derive(Clone, Copy)]
pub struct Target {
    pub typ: u32,
    pub last: Accessor,
    pub bits: u64,
    pub parts: u32,
}

// A candidate's match: at a bit offset, with the target's value, where it has one.
#[derive(Clone, Copy)]
pub struct Match {
    pub bits: u64,
    pub value: Option<Value>,
}

// What is kept of the matches: the first one, the first conflicting id and how many conflict.
#[derive(Clone, Copy)]
pub struct Kept {
    pub first: Match,
    pub conflict: u32,
    pub count: u64,
}

// What a load or store of another size needs: nothing where the sizes are equal; no type on one side; types that cannot
// be exchanged; this many bytes.
#[derive(Clone, Copy)]
pub enum Resize {
    Same,
    OneSided,
    Unlike,
    To(u32),
}

// What is written: a value, with the change of size that a load or store needs; or poison.
// No `Option`: poison is bytes too, and `None` would say that nothing is written.
#[derive(Clone, Copy)]
pub enum Write {
    Put(u64, Resize),
    Poison,
}

// A CO-RE record: its instruction's offset in the section, a type id, where its access string begins, a kind.
#[derive(Clone, Copy)]
pub struct Record {
    pub offset: u32,
    pub typ: u32,
    pub access: u32,
    pub kind: u32,
}

// What a record is answered: applied with a value, applied with poison, or refused.
// No `Result` of an `Option`: the report tells the three apart by one match, and poison is no absence, it is applied.
#[derive(Clone, Copy)]
pub enum Answer {
    Applied(u64),
    Poisoned,
    Refused(Refusal),
}

// Which of the two BTFs.
#[derive(Clone, Copy)]
pub enum Which {
    Local,
    Target,
}

// How a call ends (section 3): every record applied; a bad BTF with the id of its first fault; a BTF over a limit; a lent
// table too short, with the entries needed; a record refused, with its number in the list; bytes of a wrong shape.
// No `Result`: the ends are numbered 0 to 18 by one definition, `Done` among them, and none is handed on by `?`.
#[derive(Clone, Copy)]
pub enum Ending {
    Done,
    BadBtf(Which, u32),
    OverLimit(Which),
    TableShort(Which, u32),
    Stopped(u64, Refusal),
    Misshapen,
}

// What a call says back: how it ended, and how many records were applied before.
#[derive(Clone, Copy)]
pub struct Said {
    pub ending: Ending,
    pub applied: u64,
}
