//! What is said by a limit's name holds with any number, so the law has the numbers. It runs no code.
ghost use Rattle.std.specs.Prelude.{◌≡◌};
ghost use Rattle.wi_files.specs.declared.certificate_file.TheConstants.{READ_LIMIT, WRITTEN_LIMIT};
ghost use Rattle.wi_files.specs.declared.fetch.TheConstants.{LINES_LIMIT};

/// A file has so many bytes at most: one of a certificate or a tree, a certificate's lines from `heads` on, and a script or policies.
pub fn limits_have_these_numbers()
    ensures read { READ_LIMIT ≡ 268435456 }
    ensures written { WRITTEN_LIMIT ≡ 268000000 }
    ensures lines { LINES_LIMIT ≡ 1048576 }
{}
