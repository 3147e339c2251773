use anyhow::anyhow;
use std::env;

// What the arguments ask for.
#[derive(Clone, Copy)]
pub struct Options {
    pub by_class: bool,
    // whether a run is shown for each ask, in place of the rows
    pub moves: bool,
    // how many places the row table has
    pub places: usize,
    // how often all asks are answered, where times are asked for
    pub rounds: Option<u32>,
}

impl Options {
    fn take(&mut self, word: &str) -> anyhow::Result<()> {
        if word == "class" {
            self.by_class = true;
        } else if word == "moves" {
            self.moves = true;
        } else if let Some(places) = word.strip_prefix("places=") {
            self.places = places.parse::<usize>()?;
        } else if let Some(rounds) = word.strip_prefix("time=") {
            self.rounds = Some(rounds.parse::<u32>()?);
        } else {
            return Err(anyhow!("arguments: class, moves, places=N, time=N"));
        }
        Ok(())
    }
}

pub fn read_options(rt: &HostRuntime) -> anyhow::Result<Options> {
    let mut options = Options {
        by_class: false,
        moves: false,
        places: 8192,
        rounds: None,
    };
    for word in env::args(rt)?.skip(1) {
        options.take(word.as_str())?;
    }
    Ok(options)
}
