// A best run for each ask, move by move.
use crate::answers::print_path_refusal;
use crate::ask::Ask;
use crate::blank::{blank_cells, blank_list};
use crate::worked::Worked;
use grade::grade::Grade;
use unfolding::stage::Stage;

// How many moves are shown of a run.
const MOST: u32 = 1000;

// Prints each move with the mode, the phase and the length of the lane after it, and how the run ends.
fn print_moves<G: Grade>(
    rt: &HostRuntime,
    worked: &Worked<G>,
    list: &mut [usize],
    start: Stage,
) -> anyhow::Result<()> {
    let mut stage = start;
    for _ in 0..MOST {
        match worked.next(list, stage) {
            Ok(Some(shown)) => {
                stage = shown.after;
                let number = shown.number;
                let mode = stage.mode;
                let phase = stage.phase;
                let length = stage.length;
                println!(rt; "by {number} to {mode} {phase} {length}")?;
            }
            Ok(None) => {
                println!(rt; "arrived")?;
                return Ok(());
            }
            Err(refusal) => {
                let number = refusal.number();
                println!(rt; "refused {number}")?;
                return Ok(());
            }
        }
    }
    println!(rt; "more")?;
    Ok(())
}

// Prints for each ask the best grade and the moves of a run that has it.
pub fn print_runs<G: Grade + Into<u32>>(
    rt: &HostRuntime,
    asks: &[Ask],
    worked: &Worked<G>,
) -> anyhow::Result<()> {
    let mut scratch = blank_cells::<G>(rt.alloc())?;
    let mut list = blank_list(rt.alloc(), worked.rows.len())?;
    for ask in asks {
        match worked.lay_out(ask, scratch.as_mut_slice(), list.as_mut_slice()) {
            Ok(grade) => {
                let shown: u32 = grade.into();
                println!(rt; "way {shown}")?;
                let start = Stage {
                    mode: ask.mode,
                    phase: ask.phase,
                    length: ask.lane.len(),
                };
                print_moves(rt, worked, list.as_mut_slice(), start)?;
            }
            Err(refusal) => print_path_refusal(rt, refusal)?,
        }
    }
    Ok(())
}
