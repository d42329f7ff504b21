//! Runs in which memory may be refused at any growth: they accept either answer, and check what must
//! be so after each.

/// What the call answers. One growth alone is refused: where the call wants memory, it is made again.
macro_rules! answer_of {
    ($rt:expr; $call:expr) => {
        match $call {
            Ok(answer) => answer,
            Err(error) => {
                crate::tests::asserts::assert_same(
                    $rt,
                    wgsl_scalar::Error::from(error),
                    wgsl_scalar::Error::Memory,
                );
                $call.expect($rt, "memory")
            }
        }
    };
}

mod sessions;
