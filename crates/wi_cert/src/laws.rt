//! What holds of the texts of certificates and of tree certificates, whatever runs; and the number of a limit, since what is said
//! by its name holds with any.
ghost use Rattle.std.specs.Prelude.{◌≡◌, ℕ, true, ◌++◌, List, length, Ok, Err};
ghost use Rattle.wi_cert.specs.declared.tree.TheConstants.{NODE_LIMIT};
ghost use Rattle.wi_cert.specs.declared.certificate.Certificate.{Certificate};
ghost use Rattle.wi_cert.specs.declared.tree.Node.{Node};
ghost use Rattle.wi_cert.specs.declared.tree.TreeCertificate.{TreeCertificate};
ghost use Rattle.wi_cert.specs.Reading.{Form, Fed, fed, decoded};
ghost use Rattle.wi_cert.specs.Sheets.{certificates};
ghost use Rattle.wi_cert.specs.Text.{IsText, IsBadLine};
ghost use Rattle.wi_cert.specs.Trees.{trees, can_make, makes_trees, IsTreeText};

/// Two pieces, one after the other, leave what their bytes in a row leave, whatever the form of the text.
pub fn pieces_are_bytes<S, C>()
    ensures { (form : Form S C) (r : Fed S) (first second : List ℕ) → fed form r (first ++ second) ≡ fed form (fed form r first) second }
{}

/// The first bad line is the one that is told, and the other way round, whatever the form of the text.
pub fn bad_lines_are_told<S, C>()
    ensures told { (form : Form S C) (bytes : List ℕ) (n : ℕ) → IsBadLine form bytes n → decoded form bytes ≡ Err n }
    ensures bad { (form : Form S C) (bytes : List ℕ) (n : ℕ) → decoded form bytes ≡ Err n → IsBadLine form bytes n }
{}

/// What has the text is what is read of it, and the other way round.
pub fn texts_are_read()
    ensures read { (c : Certificate) (bytes : List ℕ) → IsText c bytes → decoded certificates bytes ≡ Ok c }
    ensures written { (c : Certificate) (bytes : List ℕ) → decoded certificates bytes ≡ Ok c → IsText c bytes }
{}

/// No two certificates have one text.
pub fn a_text_has_one_certificate()
    ensures { (c d : Certificate) (bytes : List ℕ) → IsText c bytes → IsText d bytes → c ≡ d }
{}

/// What has the text of a tree certificate is what is read of it, and the other way round.
pub fn trees_are_read()
    ensures read { (t : TreeCertificate) (bytes : List ℕ) → IsTreeText t bytes → decoded trees bytes ≡ Ok t }
    ensures written { (t : TreeCertificate) (bytes : List ℕ) → decoded trees bytes ≡ Ok t → IsTreeText t bytes }
{}

/// No two tree certificates have one text.
pub fn a_text_has_one_tree()
    ensures { (t u : TreeCertificate) (bytes : List ℕ) → IsTreeText t bytes → IsTreeText u bytes → t ≡ u }
{}

/// So many nodes can make so many trees in a row exactly where some list of that length does.
pub fn nodes_can_make_trees()
    ensures some { (count trees : ℕ) → can_make count trees ≡ true → (nodes : List Node) × (length nodes ≡ count) × (makes_trees trees nodes ≡ true) }
    ensures each { (count trees : ℕ) (nodes : List Node) → length nodes ≡ count → makes_trees trees nodes ≡ true → can_make count trees ≡ true }
{}

/// A tree has so many nodes at most.
pub fn limits_have_these_numbers()
    ensures { NODE_LIMIT ≡ 10000 }
{}
