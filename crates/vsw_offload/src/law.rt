//! What holds of rows, and of their files.

ghost use Rattle.vsw_offload.specs.Answered.{OneAnswer, RowsAnswerAsLayers, WordsSayOne};
ghost use Rattle.vsw_offload.specs.Exact.{FilesAreRight, FilesTell, TablesAreFiles};

/// Words say one row, a file's rows answer one thing, and rows that are good after a history answer as the layers do there.
pub fn laws()
    ensures one { WordsSayOne }
    ensures answer { OneAnswer }
    ensures layers { RowsAnswerAsLayers }
{}

/// Nothing is at fault with a rows file, and it is that of one list of ports. What is written of a table's ports is such a file.
pub fn file_laws()
    ensures right { FilesAreRight }
    ensures tell { FilesTell }
    ensures tables { TablesAreFiles }
{}
