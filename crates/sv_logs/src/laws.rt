//! What the orders of logs leave of the files.
ghost use Rattle.sv_logs.specs.Carrying.{EachFileHasWhatWasLogged};

/// No logged byte is lost but by rotation and by a clear: where pieces are logged and files cleared one after the other, and
/// the orders for that are carried out in turn, a log's file and its backups hold what the appends of the pieces that were
/// logged to this file, and its clears, make of them, and no others; and the known size is the file's. A clear leaves the file
/// empty, or missing where it was. At the beginning the known size is to be the file's, and no log's file may be a backup of
/// another's.
pub fn each_file_has_what_was_logged()
    ensures { EachFileHasWhatWasLogged }
{}
