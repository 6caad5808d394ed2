#![tactic(auto)]

// The plain data that the bench's code and the definitions of document 01 share.
ghost use Rattle.std.specs.Prelude.{◌≡◌};
ghost use Rattle.model.specs.Reasons.{fault_number, reason_number};

// A type: kind 0 bool, 1 signed, 2 unsigned, and for a wire also 3 dc of signed, 4 dc of unsigned; then its precision.
#[derive(Clone, Copy, PartialEq, Eq, Debug)]
pub struct Ty {
    pub kind: u8,
    pub p: u8,
}

// A token: tag 0 plain, 1 '<, 2 '>, 3 data; the value is 0 for tags 1 and 2.
#[derive(Clone, Copy, PartialEq, Eq, Debug)]
pub struct Token {
    pub tag: u8,
    pub value: i64,
}

// The number of a wire.
#[derive(Clone, Copy, PartialEq, Eq, Debug)]
pub struct WireId(pub u8);

// The number of a process: boxes first, then inputs, then outputs.
#[derive(Clone, Copy, PartialEq, Eq, Debug)]
pub struct ProcessId(pub u8);

// The number of a rule in its box.
#[derive(Clone, Copy, PartialEq, Eq, Debug)]
pub struct RuleId(pub u8);

// A value with its type.
#[derive(Clone, Copy, PartialEq, Eq, Debug)]
pub struct Value {
    pub ty: Ty,
    pub value: i64,
}

// Why an expression has no value.
#[derive(Clone, Copy, PartialEq, Eq, Debug)]
pub enum Fault {
    ZeroDivisor,
}

impl Fault {
    // The paper's number.
    #[tactic(auto, using(crate::proofs::Numbers::the_number))]
    pub fn number(self) -> u8
        ensures { result ≡ fault_number self }
    {
        match self {
            Fault::ZeroDivisor => 9,
        }
    }
}

// What working out an expression gives.
pub type Outcome = Result<Value, Fault>;

// A field of a file: its tag, where its body starts and how long that is.
#[derive(Clone, Copy, PartialEq, Eq, Debug)]
pub struct Field {
    pub tag: u8,
    pub start: usize,
    pub len: usize,
}

// Why a call is refused: the file's form, its limits, its ports or its types, the token file, too little room, the saved state, the order of
// a cycle, or a fault.
#[derive(Clone, Copy, PartialEq, Eq, Debug)]
pub enum Reason {
    Form,
    Limits,
    Ports,
    Types,
    Tokens,
    Space,
    State,
    Order,
    Fault(Fault),
}

impl Reason {
    // The paper's number.
    #[tactic(auto, unfolding(crate::specs::Reasons::reason_number))]
    pub fn number(self) -> u8
        ensures { result ≡ reason_number self }
    {
        match self {
            Reason::Form => 1,
            Reason::Limits => 2,
            Reason::Ports => 3,
            Reason::Types => 4,
            Reason::Tokens => 5,
            Reason::Space => 6,
            Reason::State => 7,
            Reason::Order => 8,
            Reason::Fault(fault) => fault.number(),
        }
    }
}

// A refusal: why, and the place.
#[derive(Clone, Copy, PartialEq, Eq, Debug)]
pub struct Refusal {
    pub reason: Reason,
    pub place: usize,
}

// The marking's answer: the marked set, and the rule number of each of 32 boxes, 16 for a box that is not marked or not there.
#[derive(Clone, Copy, PartialEq, Eq, Debug)]
pub struct Marked {
    pub answer: Result<u64, Refusal>,
    pub rules: [u8; 32],
}

// What a call of one cycle did: the cycle, or nothing since nothing was marked.
#[derive(Clone, Copy, PartialEq, Eq, Debug)]
pub enum Turn {
    Done,
    Idle,
}

// How a run ended: nothing marked, the budget spent, or a fault with its box.
#[derive(Clone, Copy, PartialEq, Eq, Debug)]
pub enum Ending {
    Idle,
    Spent,
    Fault { fault: Fault, place: u8 },
}

// A run that was begun: how it ended, and the cycles done.
#[derive(Clone, Copy, PartialEq, Eq, Debug)]
pub struct Ran {
    pub ending: Ending,
    pub cycles: u32,
}
