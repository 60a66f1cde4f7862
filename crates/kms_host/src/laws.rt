//! What holds of every host that answers as a disk may.
ghost use Rattle.kms_host.specs.Possible.{ReadsAnImage};

/// Each file of the store, as it reads, is one of the images that a stop may leave of it.
pub fn a_file_reads_as_an_image()
    ensures { ReadsAnImage }
{}
