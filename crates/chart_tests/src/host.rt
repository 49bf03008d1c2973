//! The host of the helpers of tests, which end the process if a call of theirs fails.

use std::alloc::AllocGlobal;
use std::process::Abort;

/// A host with memory, at which a test may end.
pub trait Host: Abort + AllocGlobal {}

impl<R: Abort + AllocGlobal> Host for R {}
