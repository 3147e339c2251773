// The lines that an order book is made of.
use grade::toll::Toll;
use grade::upto::UpTo;

// How many bytes a line has at most.
pub const LONGEST: usize = 512;

// Where the shunter stands in its work: a control location.
pub type Mode = UpTo<15>;

// A kind of wagon: a stack symbol.
pub type Wagon = UpTo<31>;

// Orders and notices share one numbering: a rule's name.
pub type Number = UpTo<63>;

// A state of the automaton that says which lanes are watched.
pub type Node = UpTo<63>;

// The wagons that an order sets down, the first on top. An enum: it has the three cases, where a list would need a length.
#[derive(Clone, Copy, Debug, PartialEq, Eq)]
pub enum Wagons {
    Zero,
    One(Wagon),
    Two(Wagon, Wagon),
}

// In `mode` with `wagon` on top: `wagons` take its place, and the mode becomes `to`.
#[derive(Clone, Copy, Debug, PartialEq, Eq)]
pub struct OrderLine {
    pub number: Number,
    pub mode: Mode,
    pub wagon: Wagon,
    pub to: Mode,
    pub wagons: Wagons,
    pub toll: Toll,
}

// In `mode`: the phase loses `loses` and gains `gains`, and the mode becomes `to`.
#[derive(Clone, Copy, Debug, PartialEq, Eq)]
pub struct NoticeLine {
    pub number: Number,
    pub mode: Mode,
    pub to: Mode,
    pub loses: Number,
    pub gains: Number,
    pub toll: Toll,
}

// The watch goes from a mode by a top wagon to a node.
#[derive(Clone, Copy, PartialEq, Eq, PartialOrd, Ord, Debug)]
pub struct WatchLine {
    pub mode: Mode,
    pub wagon: Wagon,
    pub node: Node,
}

// The watch goes on from a node by a wagon to a node.
#[derive(Clone, Copy, PartialEq, Eq, PartialOrd, Ord, Debug)]
pub struct LinkLine {
    pub node: Node,
    pub wagon: Wagon,
    pub to: Node,
}

// An order or a notice: what can be carried out.
#[derive(Clone, Copy, Debug, PartialEq, Eq)]
pub enum Rule {
    Order(OrderLine),
    Notice(NoticeLine),
}

#[derive(Clone, Copy, Debug, PartialEq, Eq)]
pub enum Line {
    Order(OrderLine),
    Notice(NoticeLine),
    // a phase to begin with: bit N is set where the order or notice N is in force
    Open(u64),
    Watch(WatchLine),
    Link(LinkLine),
    // a watched lane may end at this node
    End(Node),
    // an empty lane is watched in this mode
    Bare(Mode),
}

// An order or a notice is a line.
impl From<Rule> for Line {
    ghost use Rattle.std.specs.Prelude.{◌≡◌};
    ghost use Rattle.text.specs.Reading.{rule_line};

    ghost from_gives = { λ rule line. line ≡ rule_line rule };

    fn from(rule: Rule) -> Line {
        match rule {
            Rule::Order(order) => Line::Order(order),
            Rule::Notice(notice) => Line::Notice(notice),
        }
    }
}
