//! Worked rows, also with each growth of memory refused in turn: what wants memory is asked again, and every other
//! answer is compared.

mod atomics;
mod builtins;
