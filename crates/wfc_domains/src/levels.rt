//! The literals that stand, with room for a fixed number of them.

ghost use Rattle.std.specs.Prelude.{◌≡◌, ◌<◌, [], length, IfOk};
ghost use Rattle.wfc_domains.specs.Levels.{with_level, without_level, without_levels};
ghost use Rattle.wfc_domains.specs.Heights.{Heights};
ghost use Rattle.wfc_domains.specs.Store.{level_mark};

use std::alloc::Global;
use std::marker::Model;
use wfc_outside::NoMemory;
use wfc_problem::Literal;

/// The literals that stand, and for each how many removals there were when it was put on. It takes its memory where
/// it is made.
#[derive(Drop)]
pub struct Levels {
    standing: Vec<Literal>,
    marks: Vec<u32>,
    spare: u32,
}

impl Model for Levels {
    ghost use Rattle.wfc_domains.specs.Heights.{Heights};

    ghost Value = { Heights };

    ghost view = { λ a. record { standing = a.standing.items; marks = a.marks.items; spare = a.spare } };

    ghost use Rattle.wfc_domains.specs.Room.{HasRoom};

    ghost invariant = { HasRoom };
}

impl Levels {
    /// Levels on which no literal stands, with room for `levels` of them.
    pub fn new(alloc: Global, levels: u32) -> Result<Levels, NoMemory>
        ensures ok { IfOk result (λ made. made
            ≡ record { standing = []; marks = []; spare = levels }) }
    {
        Ok(Levels {
            standing: Vec::with_capacity(alloc, levels as usize)?,
            marks: Vec::with_capacity(alloc, levels as usize)?,
            spare: levels,
        })
    }

    /// The literals in the order in which they were put on.
    #[inline]
    pub fn standing(&self) -> &[Literal]
        ensures value { result.now ≡ self.now.standing }
    {
        &self.standing
    }

    /// How many more there is room for.
    #[inline]
    pub fn spare(&self) -> u32
        ensures value { result ≡ self.now.spare }
    {
        self.spare
    }

    /// How many removals there were when the last literal was put on, 0 where none stands.
    #[inline]
    pub fn mark(&self) -> u32
        ensures value { result ≡ level_mark self.now.marks }
    {
        match self.marks.last() {
            Some(mark) => *mark,
            None => 0,
        }
    }

    /// Puts a literal on.
    pub fn push(&mut self, literal: Literal, mark: u32)
        requires spare { 0 < self.old.spare }
        ensures more { self.new ≡ with_level self.old literal mark }
    {
        self.standing.push_reserved(literal);
        self.marks.push_reserved(mark);
        self.spare -= 1;
    }

    /// Takes the last literal away.
    pub fn pop(&mut self)
        requires some { 0 < length self.old.standing }
        ensures less { self.new ≡ without_level self.old }
    {
        let _ = self.standing.pop();
        let _ = self.marks.pop();
        self.spare += 1;
    }

    /// Takes all literals away.
    pub fn clear(&mut self)
        ensures none { self.new ≡ without_levels self.old }
    {
        self.spare += self.standing.len() as u32;
        self.standing.clear();
        self.marks.clear();
    }
}
