//! Bundles.
ghost use Rattle.office_law.specs.Bundles.{BundlesRunTheirParts};

/// A bundle is answered by the replies of its parts, which run in order as commands of their own. Or one of them is
/// refused after the earlier ones; then the bundle is refused with that part's number and refusal, and changes nothing.
pub fn bundles_run_their_parts()
    ensures { BundlesRunTheirParts }
{}
