//! Answers that no run over lines reaches: numbers at their ends, full lanes, want of memory.

mod answers;
