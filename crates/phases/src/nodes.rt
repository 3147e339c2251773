// The watch as an automaton: the nodes that a lane leads to, all at once.
ghost use Rattle.std.specs.Prelude.{◌≤◌, Decides};
ghost use Rattle.book.specs.Lines.{lines};
ghost use Rattle.phases.specs.Nodes.{Marks, Marked, MarkedBy, Enters, Links, EndsIn, LeadsFrom};
ghost use Rattle.phases.specs.Held.{Takes};

use book::tables::Book;
use text::line::{LinkLine, Node, WatchLine};

// The nodes to which these lines go, where `goes` says which of them go and where to.
fn marks<L: Copy, F: Fn(L) -> Option<Node>>(lines: &[L], goes: F) -> [bool; 64]
    requires { F.IsAlwaysCallable goes }
    ensures { MarkedBy (F.post goes) lines.now result }
{
    let mut nodes = [false; 64];
    for line in lines {
        if let Some(node) = goes(*line) {
            nodes[usize::from(node)] = true;
        }
    }
    nodes
}

// The nodes to which watch lines go from the mode by the wagon.
fn first_nodes(book: &Book, mode: u8, wagon: u8) -> [bool; 64]
    ensures { Marks result (Enters (lines book.now) mode wagon) }
{
    marks(book.watches_in_use(), |line: WatchLine| {
        let fits = line.mode.value == u16::from(mode) && line.wagon.value == u16::from(wagon);
        fits.then_some(line.node)
    })
}

// The nodes to which link lines go from these by the wagon.
fn next_nodes(book: &Book, from: &[bool; 64], wagon: u8) -> [bool; 64]
    ensures { Marks result (Links (lines book.now) (Marked from.now) wagon) }
{
    marks(book.links_in_use(), |line: LinkLine| {
        let fits = from[usize::from(line.node)] && line.wagon.value == u16::from(wagon);
        fits.then_some(line.to)
    })
}

// Whether one of these nodes has an end line.
fn any_end(book: &Book, nodes: &[bool; 64]) -> bool
    ensures { Decides result (EndsIn (lines book.now) (Marked nodes.now)) }
{
    nodes
        .iter()
        .zip(&book.ends)
        .any(|(node, end)| *node && *end)
}

// Whether link lines lead from one of these nodes by the wagons to an end.
fn leads(book: &Book, start: [bool; 64], wagons: &[u8]) -> bool
    ensures { Decides result (LeadsFrom (lines book.now) (Marked start) wagons.now) }
{
    let mut nodes = start;
    for wagon in wagons {
        nodes = next_nodes(book, &nodes, *wagon);
    }
    any_end(book, &nodes)
}

// Whether the lines of the watch take the mode and the lane.
pub(crate) fn takes(book: &Book, mode: u8, lane: &[u8]) -> bool
    requires { mode ≤ 15 }
    ensures { Decides result (Takes (lines book.now) mode lane.now) }
{
    match lane {
        [] => book.bares[usize::from(mode)],
        [top, others @ ..] => leads(book, first_nodes(book, mode, *top), others),
    }
}
