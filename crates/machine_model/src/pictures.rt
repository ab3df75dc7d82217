//! What the caches show, and what an export takes from them.

ghost use Rattle.machine_model.specs.PictureLaws.{CachesAreFolds, CoveredReachesRoot, CleanIsPicture, CleanIsFrame, ExportIsFrame};

/// Each cache is the fold of its group's children, but where something will compose the group again.
pub fn caches_are_folds()
    ensures { CachesAreFolds }
{}

/// Where something will compose a group again, it will compose the root again.
pub fn covered_reaches_root()
    ensures { CoveredReachesRoot }
{}

/// Where the root is not covered its cache is the picture of the present document.
pub fn clean_is_picture()
    ensures { CleanIsPicture }
{}

/// Where nothing is covered the root's cache makes the frame of the present document.
pub fn clean_is_frame()
    ensures { CleanIsFrame }
{}

/// An export takes the frame of the document from the root's cache.
pub fn export_is_frame()
    ensures { ExportIsFrame }
{}
