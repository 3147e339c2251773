// A state of a row. Any numbers can stand in it: a table may be anybody's.
#[derive(Clone, Copy, Debug, PartialEq, Eq)]
pub enum TableState {
    // a node of the watch
    Node(u8),
    // a mode, and the place of a phase among the opened phases
    Head(u8, u8),
}

// Why a row is there. Rows that it rests on are named by their places in the table.
#[derive(Clone, Copy, Debug, PartialEq, Eq)]
pub enum Reason {
    // a watch line or a link line
    Line,
    // the order with this number, and the rows by its wagons in their order; places that no wagon needs are 0
    // (no `Option`: how many places count, the order's wagons say)
    Order(u8, usize, usize),
    // the notice with this number, and the row of the head after it
    Notice(u8, usize),
}

impl Reason {
    ghost use Rattle.std.specs.Prelude.{◌≡◌};
    ghost use Rattle.rowtable.specs.Reasons.{reason_number};

    // The number of the order or notice.
    pub fn number(&self) -> Option<u8>
        ensures { result ≡ reason_number self.now }
    {
        match *self {
            Reason::Line => None,
            Reason::Order(number, _, _) | Reason::Notice(number, _) => Some(number),
        }
    }
}

// A row with its grade. `rank` says as the how-manieth it was settled: a row rests only on rows of smaller rank.
#[derive(Clone, Copy, Debug, PartialEq, Eq)]
pub struct TableRow<G> {
    pub from: TableState,
    pub wagon: u8,
    pub to: TableState,
    pub grade: G,
    pub rank: usize,
    pub reason: Reason,
}
