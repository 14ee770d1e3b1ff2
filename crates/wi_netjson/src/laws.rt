//! A law on what bytes mean, and one that has the number of a limit, since what is said by its name holds with any. They run no
//! code.
ghost use Rattle.std.specs.Prelude.{◌≡◌, ◌<◌, ◌++◌, ℕ, List, length, codes};
ghost use Rattle.wi_netjson.specs.declared.file.TheConstants.{NETWORK_LIMIT};
ghost use Rattle.wi_netjson.specs.File.{network_of};

/// A file means the same with a line feed at its end, within the limit of bytes.
pub fn a_line_feed_changes_nothing()
    ensures { (bytes : List ℕ) → length bytes < NETWORK_LIMIT → network_of (bytes ++ codes "\n") ≡ network_of bytes }
{}

/// A network file has so many bytes at most.
pub fn limits_have_these_numbers()
    ensures { NETWORK_LIMIT ≡ 67108864 }
{}
