//! The kernels of rows, each as one call, as the plain loops are.

use crate::pool::Bits;
use bit_rows::{ROW_BITS, Row};
use std::alloc::{AllocError, Global};

impl Bits for Row {
    fn of_rest(alloc: Global, rest: u32) -> Result<Row, AllocError> {
        let mut row = Row::new(alloc)?;
        for number in 0..ROW_BITS {
            if number % 3 == rest {
                row.set(number);
            }
        }
        Ok(row)
    }

    #[inline(never)]
    fn add_bits(&mut self, other: &Row) {
        self.or_into(other);
    }

    #[inline(never)]
    fn meets_one(&self, other: &Row) -> bool {
        self.meets(other)
    }

    #[inline(never)]
    fn meets_two(&self, second: &Row, third: &Row) -> bool {
        self.and_any(second, third)
    }

    #[inline(never)]
    fn count_bits(&self) -> u32 {
        self.count()
    }
}
