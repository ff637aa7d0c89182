//! Scripts of fetches, and how each is served.

use gatekeeper::{Modules, Served, ValidCode};
use std::alloc::Global;
use std::process::Abort;
use std::test::Fail;

/// How these fetches are served, one after the other.
pub(crate) fn expect_served<R: Abort, M: Modules>(
    rt: &R,
    alloc: Global,
    cache: &mut M,
    codes: &[ValidCode],
    script: &[(usize, Served)],
) -> Result<(), Fail> {
    for (at, served) in script {
        let code = codes.get(*at).ok_or("no such code")?;
        assert_eq!(rt; cache.fetch(alloc, code)?.1, *served);
    }
    Ok(())
}
