//! Rows of what comes before each number.

ghost use Rattle.std.specs.Prelude.{◌≡◌, ◌<◌, ◌≤◌, ◌+◌, ◌-◌, ◌↔◌, ◌⊎◌, ◌++◌, ◌∷◌, [], ℕ, All, Any, Contains, IfOk, OnOk, OnErr, IsTrue};
ghost use Rattle.graph_base.specs.Walk.{IsInRange, HasCycle, Reaches};
ghost use Rattle.graph_base.specs.Closure.{SameClosure};
ghost use Rattle.bit_rows.specs.declared.TheConstants.{ROW_BITS};
ghost use Rattle.reach_rows.specs.Ancestry.{IsLast, IsDownOver};
ghost use Rattle.reach_rows.specs.Stars.{star_of, edges_of, IsStarInRange};

use crate::Star;
use crate::carry::{add_ancestors, gather, gather_ancestors, spread};
use crate::stars::{close_over, rows_of_stars, stars_of_edges};
use bit_rows::{BitMatrix, ROW_BITS, Row};
use graph_base::Edge;
use std::alloc::{AllocError, Global};
use std::marker::Model;

/// Which number reaches which, over edges that were added and close no cycle. Numbers are those
/// below its size, at most `ROW_BITS`.
#[derive(Debug, Drop)]
pub struct Reach {
    alloc: Global,
    /// Row `n` has the numbers that come before `n`.
    rows: BitMatrix,
    /// Room for what new edges bring, so that adding them takes no memory.
    gained: Row,
}

impl Model for Reach {
    ghost use Rattle.std.specs.Prelude.{length};
    ghost use Rattle.reach_rows.specs.Ancestry.{Ancestry};
    ghost use Rattle.reach_rows.specs.Rows.{pairs_of, IsClosed};

    ghost Value = { Ancestry };

    ghost view = { λ reach. record { size = length reach.rows; pairs = pairs_of reach.rows } };

    ghost invariant = { λ reach. IsClosed reach.rows };
}

impl Reach {
    /// Number 0 alone, without edges. An error is out of memory.
    pub fn new(alloc: Global) -> Result<Reach, AllocError>
        ensures { IfOk result (λ reach. reach ≡ record { size = 1; pairs = [] }) }
    {
        let gained = Row::new(alloc)?;
        let mut rows = BitMatrix::new(alloc);
        rows.push()?;
        Ok(Reach {
            alloc,
            rows,
            gained,
        })
    }

    /// Adds one number, without edges, so nothing comes after it. An error is out of memory, and
    /// then nothing has changed.
    pub fn grow(&mut self) -> Result<(), AllocError>
        requires { self.old.size < ROW_BITS }
        ensures ok { OnOk result (self.new ≡ record self.old { size = self.old.size + 1 }) }
        ensures err { OnErr result (self.new ≡ self.old) }
        ensures last { OnOk result (IsLast self.new.pairs self.old.size) }
    {
        self.rows.push()?;
        Ok(())
    }

    /// Removes the last number, which no pair names, and changes nothing else.
    pub fn take_back(&mut self)
        requires many { 2 ≤ self.old.size }
        requires unnamed { IsInRange (self.old.size - 1) self.old.pairs }
        ensures { self.new ≡ record self.old { size = self.old.size - 1 } }
    {
        self.rows.pop();
    }

    /// How many numbers there are. The pairs are of numbers below the size, and have no cycle.
    pub fn size(&self) -> u32
        ensures size { result ≡ self.now.size }
        ensures some { 1 ≤ self.now.size }
        ensures few { self.now.size ≤ ROW_BITS }
        ensures in_range { IsInRange self.now.size self.now.pairs }
        ensures acyclic { ¬ HasCycle self.now.pairs }
    {
        self.rows.len() as u32
    }

    /// Whether one number reaches another over at least one edge.
    pub fn reaches(&self, from: u32, to: u32) -> bool
        requires from { from < self.now.size }
        requires to { to < self.now.size }
        ensures { IsTrue result ↔ Reaches self.now.pairs from to }
    {
        self.rows.has(to, from)
    }

    /// Whether two numbers are one, or the first reaches the second.
    pub(crate) fn is_or_reaches(&self, from: u32, to: u32) -> bool
        requires from { from < self.now.size }
        requires to { to < self.now.size }
        ensures { IsTrue result ↔ ((from ≡ to) ⊎ Reaches self.now.pairs from to) }
    {
        from == to || self.reaches(from, to)
    }

    /// Adds an edge into a number that nothing comes after, by one union of rows, or by one bit test
    /// where the source comes before it already: the pairs have the closure of the earlier ones and
    /// the edge. But for the source, what nothing came after, nothing comes after now.
    pub fn add_into_last(&mut self, source: u32, reader: u32)
        requires source { source < self.old.size }
        requires reader { reader < self.old.size }
        requires apart { ¬ source ≡ reader }
        requires last { IsLast self.old.pairs reader }
        ensures size { self.new.size ≡ self.old.size }
        ensures closure { SameClosure self.new.pairs
            (self.old.pairs ++ record { before = source; after = reader } ∷ []) }
        ensures last { (n : ℕ) → ¬ n ≡ source → IsLast self.old.pairs n → IsLast self.new.pairs n }
    {
        if self.reaches(source, reader) {
            return;
        }
        self.rows.join_up_to(source, reader);
    }

    /// Whether each member comes before the target.
    fn all_before(&self, members: &[u32], target: u32) -> bool
        requires target { target < self.now.size }
        requires members { All (λ m. m < self.now.size) members.now }
        ensures { IsTrue result ↔ All (λ m. Reaches self.now.pairs m target) members.now }
    {
        members.iter().all(|member| self.reaches(*member, target))
    }

    /// Adds the edges from each member to the target, which close no cycle: the pairs have the
    /// closure of the earlier ones and these edges. But for the members, what nothing came after,
    /// nothing comes after now. Costs a bit test for each member where all come before the target
    /// already, and one pass over the rows where not.
    pub fn add_star(&mut self, members: &[u32], target: u32)
        requires target { target < self.old.size }
        requires members { All (λ m. m < self.old.size) members.now }
        requires acyclic { ¬ HasCycle (self.old.pairs ++ star_of members.now target) }
        ensures size { self.new.size ≡ self.old.size }
        ensures closure { SameClosure self.new.pairs (self.old.pairs ++ star_of members.now target) }
        ensures last { (n : ℕ) → ¬ Contains members.now n → IsLast self.old.pairs n → IsLast self.new.pairs n }
    {
        if self.all_before(members, target) {
            return;
        }
        self.rows.copy_to(target, &mut self.gained);
        gather(&mut self.gained, &self.rows, members);
        spread(&mut self.rows, target, &self.gained);
    }

    /// Adds one edge, which closes no cycle: the pairs have the closure of the earlier ones and the
    /// edge.
    pub fn add_edge(&mut self, edge: Edge)
        requires before { edge.before < self.old.size }
        requires after { edge.after < self.old.size }
        requires acyclic { ¬ HasCycle (self.old.pairs ++ edge ∷ []) }
        ensures size { self.new.size ≡ self.old.size }
        ensures closure { SameClosure self.new.pairs (self.old.pairs ++ edge ∷ []) }
        ensures last { (n : ℕ) → ¬ n ≡ edge.before → IsLast self.old.pairs n → IsLast self.new.pairs n }
    {
        let members = [edge.before];
        self.add_star(&members, edge.after);
    }

    /// Makes a row what comes before a number, its ancestors.
    pub fn ancestors_of(&self, number: u32, row: &mut Row)
        requires { number < self.now.size }
        ensures { (n : ℕ) → Contains row.new n ↔ Reaches self.now.pairs n number }
    {
        self.rows.copy_to(number, row);
    }

    /// Adds what comes before a number to a row that has, with each number, what comes before it.
    /// Costs a bit test where the row has the number, and one union where not: so members that are
    /// added from the greatest down cost few unions.
    pub fn add_ancestors(&self, row: &mut Row, number: u32)
        requires number { number < self.now.size }
        requires down { IsDownOver self.now.pairs row.old }
        ensures gains { (n : ℕ) → Contains row.new n ↔ (Contains row.old n ⊎ Reaches self.now.pairs n number) }
        ensures down { IsDownOver self.now.pairs row.new }
    {
        add_ancestors(row, &self.rows, number);
    }

    /// The ancestors of the members: a row that has a number exactly where it reaches some member.
    /// A member that comes before a later one costs a bit test, any other one union. Takes the
    /// memory of a row; an error is out of memory.
    pub fn union_of(&self, members: &[u32]) -> Result<Row, AllocError>
        requires { All (λ m. m < self.now.size) members.now }
        ensures { IfOk result (λ row. (n : ℕ) → Contains row n ↔ Any (λ m. Reaches self.now.pairs n m) members.now) }
    {
        let mut row = Row::new(self.alloc)?;
        gather_ancestors(&mut row, &self.rows, members);
        Ok(row)
    }

    /// Adds the edges of all the stars, which close no cycle: the pairs have the closure of the
    /// earlier ones and these edges. But for the members, what nothing came after, nothing comes
    /// after now.
    pub fn add_stars(&mut self, stars: &[Star])
        requires in_range { All (IsStarInRange self.old.size) stars.now }
        requires acyclic { ¬ HasCycle (self.old.pairs ++ edges_of stars.now) }
        ensures size { self.new.size ≡ self.old.size }
        ensures closure { SameClosure self.new.pairs (self.old.pairs ++ edges_of stars.now) }
        ensures last { (n : ℕ) → ¬ Any (λ star. Contains star.members.items n) stars.now →
            IsLast self.old.pairs n → IsLast self.new.pairs n }
    {
        for star in stars {
            self.add_star(&star.members, star.target);
        }
    }

    /// Whether the edges that were added and those of all the stars together have a cycle. Takes
    /// the memory of a row for each star; an error is out of memory.
    pub fn stars_close_cycle(&self, stars: &[Star]) -> Result<bool, AllocError>
        requires { All (IsStarInRange self.now.size) stars.now }
        ensures { IfOk result (λ close. IsTrue close ↔ HasCycle (self.now.pairs ++ edges_of stars.now)) }
    {
        let mut befores = rows_of_stars(self.alloc, &self.rows, stars)?;
        let mut gained = Row::new(self.alloc)?;
        Ok(close_over(&mut befores, stars, &mut gained))
    }

    /// Whether the edges that were added and the edges of the trial together have a cycle, for a
    /// trial of any shape. Takes the memory of a row for each edge of the trial; an error is out of
    /// memory.
    pub fn closes_cycle(&self, trial: &[Edge]) -> Result<bool, AllocError>
        requires { IsInRange self.now.size trial.now }
        ensures { IfOk result (λ closes. IsTrue closes ↔ HasCycle (self.now.pairs ++ trial.now)) }
    {
        let stars = stars_of_edges(self.alloc, trial)?;
        self.stars_close_cycle(&stars)
    }
}
