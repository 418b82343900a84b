//! The laws of files. Each function here is a law, and does nothing.
ghost use Rattle.cl_file.specs.Laws.{OneFile, EachFile};

/// Of the bytes of a transaction file one thing comes, whatever they are: one file, or one first
/// fault.
pub fn files_have_one_reading()
    ensures one { OneFile }
    ensures each { EachFile }
{
    cl_text::one_outcome();
}
