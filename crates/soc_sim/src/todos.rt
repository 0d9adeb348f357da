//! What the masters of a bus have still to do of a script.
ghost use Rattle.std.specs.Prelude.{◌≡◌, ◌≤◌, ◌<◌, ◌∷◌, [], length, drop, slice_index_or, slice_set, IfOk, MatchOption};
ghost use Rattle.soc_script.specs.Cycles.{own_lines};
ghost use Rattle.soc_script_wave.specs.Runner.{todos_from};
ghost use Rattle.soc_script_wave.specs.Work.{after_first};
ghost use Rattle.soc_sim.specs.Todos.{AreOwnPlaces, BeginsWithOwn, todos_at};

use eb_base::NoMemory;
use soc_script::ScriptLine;
use std::alloc::Global;
use std::marker::Model;

/// The lines that each master hasn't done, as the place of the first of them in the script.
///
/// A place only moves on, so that all masters together look at each line at most as often as there are masters.
#[derive(Drop)]
pub struct Todos<'a> {
    lines: &'a [ScriptLine],
    places: Vec<usize>,
}

impl<'a> Model for Todos<'a> {
    ghost use Rattle.std.specs.Prelude.{List};
    ghost use Rattle.soc_script.specs.Script.{ScriptLine};
    ghost use Rattle.soc_sim.specs.Todos.{AreOwnPlaces, todos_at};

    ghost Value = { List (List ScriptLine) };

    ghost view = { λ t. todos_at t.lines.now 0 t.places.items };

    ghost invariant = { λ t. AreOwnPlaces t.lines.now 0 t.places.items };
}

impl<'a> Todos<'a> {
    /// All lines of a script, for so many masters.
    pub fn of(alloc: Global, lines: &'a [ScriptLine], masters: u8) -> Result<Todos<'a>, NoMemory>
        ensures todos { IfOk result (λ t. t ≡ todos_from lines.now 0 masters) }
    {
        let places = first_places(alloc, lines, masters)?;
        Ok(Todos { lines, places })
    }

    /// The next line of a master, if it has one.
    pub fn next(&self, m: u8) -> Option<&'a ScriptLine>
        requires within { m < length self.now }
        ensures next { MatchOption result (slice_index_or self.now m [] ≡ [])
            (λ line. slice_index_or self.now m [] ≡ line.now ∷ after_first (slice_index_or self.now m [])) }
    {
        let at = self.places[m as usize];
        if at < self.lines.len() {
            Some(&self.lines[at])
        } else {
            None
        }
    }

    /// Goes on behind the next line of a master, if it has one.
    pub fn advance(&mut self, m: u8)
        requires within { m < length self.old }
        ensures next { self.new ≡ slice_set self.old m (after_first (slice_index_or self.old m [])) }
    {
        let at = self.places[m as usize];
        if at < self.lines.len() {
            self.places[m as usize] = first_place(self.lines, m, at + 1);
        }
    }
}

/// The place of a master's first line from a place on, or the number of lines.
fn first_place(lines: &[ScriptLine], m: u8, from: usize) -> usize
    requires within { from ≤ length lines.now }
    ensures within { result ≤ length lines.now }
    ensures first { BeginsWithOwn m (drop result lines.now) }
    ensures own { own_lines m (drop result lines.now) ≡ own_lines m (drop from lines.now) }
{
    for i in from..lines.len() {
        let line = &lines[i];
        if line.master == m {
            return i;
        }
    }
    lines.len()
}

/// The place of the first line of each master.
fn first_places(alloc: Global, lines: &[ScriptLine], masters: u8) -> Result<Vec<usize>, NoMemory>
    ensures todos { IfOk result (λ places. todos_at lines.now 0 places.items ≡ todos_from lines.now 0 masters) }
    ensures own { IfOk result (λ places. AreOwnPlaces lines.now 0 places.items) }
{
    let mut places = Vec::new(alloc);
    for m in 0..masters {
        places.push(first_place(lines, m, 0))?;
    }
    Ok(places)
}
