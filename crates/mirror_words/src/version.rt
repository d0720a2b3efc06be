//! What `--version` tells.

/// The version alone.
const ALONE: &str = "0.2.0";

/// The same with the revision, which `git archive` puts in (.gitattributes).
const WITH_REVISION: &str = "0.2.0 $Format:%h$";

/// The version, and the revision where it is known.
pub fn version() -> &'static str {
    if WITH_REVISION.ends_with('$') {
        ALONE
    } else {
        WITH_REVISION
    }
}
