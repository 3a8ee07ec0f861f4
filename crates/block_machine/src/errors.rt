// The ErrorResponse of each code, for statements that fail.
ghost use Rattle.std.specs.Prelude.{◌≡◌, IfOk};
ghost use Rattle.block_machine.specs.Replies.{error_reply};
ghost use Rattle.cell_base.specs.declared.sql_state.SqlState.TheVariants as states;

use crate::let_go::beside;
use crate::replies::error;
use cell_base::{Memory, SqlState};
use std::alloc::Global;

/// The ErrorResponse of each code, of severity ERROR.
#[derive(Debug, Drop)]
pub struct Errors {
    s08p01: Vec<u8>,
    s0a000: Vec<u8>,
    s22001: Vec<u8>,
    s22003: Vec<u8>,
    s22012: Vec<u8>,
    s22021: Vec<u8>,
    s22p02: Vec<u8>,
    s23502: Vec<u8>,
    s23505: Vec<u8>,
    s23514: Vec<u8>,
    s25001: Vec<u8>,
    s25p01: Vec<u8>,
    s25p02: Vec<u8>,
    s28000: Vec<u8>,
    s42601: Vec<u8>,
    s42701: Vec<u8>,
    s42702: Vec<u8>,
    s42703: Vec<u8>,
    s42712: Vec<u8>,
    s42803: Vec<u8>,
    s42804: Vec<u8>,
    s42883: Vec<u8>,
    s42p01: Vec<u8>,
    s42p07: Vec<u8>,
    s53200: Vec<u8>,
    s54000: Vec<u8>,
    ghost s08p01_is: { s08p01.items ≡ error_reply states.S08P01 },
    ghost s0a000_is: { s0a000.items ≡ error_reply states.S0A000 },
    ghost s22001_is: { s22001.items ≡ error_reply states.S22001 },
    ghost s22003_is: { s22003.items ≡ error_reply states.S22003 },
    ghost s22012_is: { s22012.items ≡ error_reply states.S22012 },
    ghost s22021_is: { s22021.items ≡ error_reply states.S22021 },
    ghost s22p02_is: { s22p02.items ≡ error_reply states.S22P02 },
    ghost s23502_is: { s23502.items ≡ error_reply states.S23502 },
    ghost s23505_is: { s23505.items ≡ error_reply states.S23505 },
    ghost s23514_is: { s23514.items ≡ error_reply states.S23514 },
    ghost s25001_is: { s25001.items ≡ error_reply states.S25001 },
    ghost s25p01_is: { s25p01.items ≡ error_reply states.S25P01 },
    ghost s25p02_is: { s25p02.items ≡ error_reply states.S25P02 },
    ghost s28000_is: { s28000.items ≡ error_reply states.S28000 },
    ghost s42601_is: { s42601.items ≡ error_reply states.S42601 },
    ghost s42701_is: { s42701.items ≡ error_reply states.S42701 },
    ghost s42702_is: { s42702.items ≡ error_reply states.S42702 },
    ghost s42703_is: { s42703.items ≡ error_reply states.S42703 },
    ghost s42712_is: { s42712.items ≡ error_reply states.S42712 },
    ghost s42803_is: { s42803.items ≡ error_reply states.S42803 },
    ghost s42804_is: { s42804.items ≡ error_reply states.S42804 },
    ghost s42883_is: { s42883.items ≡ error_reply states.S42883 },
    ghost s42p01_is: { s42p01.items ≡ error_reply states.S42P01 },
    ghost s42p07_is: { s42p07.items ≡ error_reply states.S42P07 },
    ghost s53200_is: { s53200.items ≡ error_reply states.S53200 },
    ghost s54000_is: { s54000.items ≡ error_reply states.S54000 },
}

// Two ErrorResponses.
type Two = (Vec<u8>, Vec<u8>);

// Four of them.
type Four = (Two, Two);

// Eight of them.
type Eight = (Four, Four);

// The ErrorResponses of two codes.
fn two(alloc: Global, first: SqlState, second: SqlState) -> Result<Two, Memory>
    ensures first { IfOk result (λ made. made.0.items ≡ error_reply first) }
    ensures second { IfOk result (λ made. made.1.items ≡ error_reply second) }
{
    let made = error(alloc, first)?;
    beside(made, error(alloc, second))
}

// The ErrorResponses of four codes.
fn four(
    alloc: Global,
    first: SqlState,
    second: SqlState,
    third: SqlState,
    fourth: SqlState,
) -> Result<Four, Memory>
    ensures first { IfOk result (λ made. made.0.0.items ≡ error_reply first) }
    ensures second { IfOk result (λ made. made.0.1.items ≡ error_reply second) }
    ensures third { IfOk result (λ made. made.1.0.items ≡ error_reply third) }
    ensures fourth { IfOk result (λ made. made.1.1.items ≡ error_reply fourth) }
{
    let made = two(alloc, first, second)?;
    beside(made, two(alloc, third, fourth))
}

// The ErrorResponses of eight codes.
fn eight(
    alloc: Global,
    first: SqlState,
    second: SqlState,
    third: SqlState,
    fourth: SqlState,
    fifth: SqlState,
    sixth: SqlState,
    seventh: SqlState,
    eighth: SqlState,
) -> Result<Eight, Memory>
    ensures first { IfOk result (λ made. made.0.0.0.items ≡ error_reply first) }
    ensures second { IfOk result (λ made. made.0.0.1.items ≡ error_reply second) }
    ensures third { IfOk result (λ made. made.0.1.0.items ≡ error_reply third) }
    ensures fourth { IfOk result (λ made. made.0.1.1.items ≡ error_reply fourth) }
    ensures fifth { IfOk result (λ made. made.1.0.0.items ≡ error_reply fifth) }
    ensures sixth { IfOk result (λ made. made.1.0.1.items ≡ error_reply sixth) }
    ensures seventh { IfOk result (λ made. made.1.1.0.items ≡ error_reply seventh) }
    ensures eighth { IfOk result (λ made. made.1.1.1.items ≡ error_reply eighth) }
{
    let made = four(alloc, first, second, third, fourth)?;
    beside(made, four(alloc, fifth, sixth, seventh, eighth))
}

impl Errors {
    /// Makes all of them.
    pub fn new(alloc: Global) -> Result<Errors, Memory> {
        let made = eight(
            alloc,
            SqlState::S08P01,
            SqlState::S0A000,
            SqlState::S22001,
            SqlState::S22003,
            SqlState::S22012,
            SqlState::S22021,
            SqlState::S22P02,
            SqlState::S23502,
        )?;
        let made = beside(
            made,
            eight(
                alloc,
                SqlState::S23505,
                SqlState::S23514,
                SqlState::S25001,
                SqlState::S25P01,
                SqlState::S25P02,
                SqlState::S28000,
                SqlState::S42601,
                SqlState::S42701,
            ),
        )?;
        let made = beside(
            made,
            eight(
                alloc,
                SqlState::S42702,
                SqlState::S42703,
                SqlState::S42712,
                SqlState::S42803,
                SqlState::S42804,
                SqlState::S42883,
                SqlState::S42P01,
                SqlState::S42P07,
            ),
        )?;
        let made = beside(made, two(alloc, SqlState::S53200, SqlState::S54000))?;
        let (((first, second), third), last) = made;
        let (((s08p01, s0a000), (s22001, s22003)), ((s22012, s22021), (s22p02, s23502))) = first;
        let (((s23505, s23514), (s25001, s25p01)), ((s25p02, s28000), (s42601, s42701))) = second;
        let (((s42702, s42703), (s42712, s42803)), ((s42804, s42883), (s42p01, s42p07))) = third;
        let (s53200, s54000) = last;
        Ok(Errors {
            s08p01,
            s0a000,
            s22001,
            s22003,
            s22012,
            s22021,
            s22p02,
            s23502,
            s23505,
            s23514,
            s25001,
            s25p01,
            s25p02,
            s28000,
            s42601,
            s42701,
            s42702,
            s42703,
            s42712,
            s42803,
            s42804,
            s42883,
            s42p01,
            s42p07,
            s53200,
            s54000,
        })
    }

    /// The bytes of the ErrorResponse with this code.
    pub fn bytes(&self, state: SqlState) -> &[u8]
        ensures { result.now ≡ error_reply state }
    {
        match state {
            SqlState::S08P01 => self.s08p01.as_slice(),
            SqlState::S0A000 => self.s0a000.as_slice(),
            SqlState::S22001 => self.s22001.as_slice(),
            SqlState::S22003 => self.s22003.as_slice(),
            SqlState::S22012 => self.s22012.as_slice(),
            SqlState::S22021 => self.s22021.as_slice(),
            SqlState::S22P02 => self.s22p02.as_slice(),
            SqlState::S23502 => self.s23502.as_slice(),
            SqlState::S23505 => self.s23505.as_slice(),
            SqlState::S23514 => self.s23514.as_slice(),
            SqlState::S25001 => self.s25001.as_slice(),
            SqlState::S25P01 => self.s25p01.as_slice(),
            SqlState::S25P02 => self.s25p02.as_slice(),
            SqlState::S28000 => self.s28000.as_slice(),
            SqlState::S42601 => self.s42601.as_slice(),
            SqlState::S42701 => self.s42701.as_slice(),
            SqlState::S42702 => self.s42702.as_slice(),
            SqlState::S42703 => self.s42703.as_slice(),
            SqlState::S42712 => self.s42712.as_slice(),
            SqlState::S42803 => self.s42803.as_slice(),
            SqlState::S42804 => self.s42804.as_slice(),
            SqlState::S42883 => self.s42883.as_slice(),
            SqlState::S42P01 => self.s42p01.as_slice(),
            SqlState::S42P07 => self.s42p07.as_slice(),
            SqlState::S53200 => self.s53200.as_slice(),
            SqlState::S54000 => self.s54000.as_slice(),
        }
    }
}
