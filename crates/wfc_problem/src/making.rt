//! A problem made of its parts, and taken apart.

ghost use Rattle.std.specs.Prelude.{◌≡◌, ◌↔◌, IsOk, IfOk, map, true};
ghost use Rattle.std.specs.Result.{result_err};
ghost use Rattle.wfc_problem.specs.Fault.{problem_fault_of};
ghost use Rattle.wfc_problem.specs.Network.{IsProblem};
ghost use Rattle.wfc_problem.specs.Whole.{network_of, IsKept};

use crate::checks::check;
use crate::hops::Hops;
use crate::{Parts, Problem, ProblemFault};
use std::mem::replace;

impl Problem {
    /// The problem of these parts. Its time is linear in the length of the tables.
    ///
    /// The first check that fails names the fault, in this order: the lengths (cells and
    /// directions, weights, neighbours, supports, base), the number of pairs, the entries of the
    /// neighbours, the lists of supports, the weights, the ways back, the symmetry of the supports.
    /// Each check names its first place: the least index, or the least cell or value and there the
    /// least direction.
    pub fn new(parts: Parts) -> Result<Problem, ProblemFault>
        ensures ok { IfOk result (λ p. p ≡ parts) }
        ensures fault { result_err result ≡ problem_fault_of parts }
        ensures problem { IsOk result ↔ IsProblem parts }
    {
        check(&parts)?;
        Ok(Problem::from_known(parts))
    }

    /// The problem of parts that are known to make one, which aren't looked at again.
    pub fn from_known(parts: Parts) -> Problem
        requires problem { IsProblem parts }
        ensures value { result ≡ parts }
    {
        if parts.is_whole() {
            return Problem::from_known_whole(parts);
        }
        Problem::kept(parts, false)
    }

    /// The problem of parts that are known to make one where each cell may have each value. They need no flags of the base,
    /// whose memory is given back.
    pub fn from_known_whole(mut parts: Parts) -> Problem
        requires problem { IsProblem (network_of true parts) }
        ensures value { result ≡ network_of true parts }
    {
        parts.forget_base();
        Problem::kept(parts, true)
    }

    /// The problem that parts say, where the base of a whole one has no flags.
    fn kept(mut parts: Parts, whole: bool) -> Problem
        requires kept { IsKept whole parts }
        ensures value { result ≡ network_of whole parts }
    {
        let alloc = *parts.neighbours.allocator();
        let table = replace(&mut parts.neighbours, Vec::new(alloc));
        let hops = Hops::of(table, parts.cells, parts.dirs);
        Problem { parts, whole, hops }
    }

    /// The lists of values that may stand beside each value, direction by direction, which another
    /// problem may be made of.
    pub fn into_supports(self) -> Vec<Vec<u16>>
        ensures value { map (λ list. list.items) result.items ≡ self.supports }
    {
        self.parts.supports
    }
}
