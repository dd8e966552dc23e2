//! Laws of keys and of inodes. These functions do nothing: what is proved is that their clauses hold.

ghost use Rattle.std.specs.Prelude.{◌≡◌, ◌≤◌, ◌+◌, ℕ, List, length, Some};
ghost use Rattle.xdr_grammar.specs.Laws.{AreBytes, Laws};
ghost use Rattle.fs_rules.specs.Limits.{longest_name};
ghost use Rattle.fs_keys.specs.declared.inode.Inode.{Inode};
ghost use Rattle.fs_keys.specs.Keys.{Parts, HasBounds, key_of, parts_of};
ghost use Rattle.fs_keys.specs.Inodes.{Fits, head, inode_of, value_of};
ghost use Rattle.fs_keys.specs.declared.rows.CookieRow.{CookieRow};
ghost use Rattle.fs_keys.specs.Values.{first, name, extent, times, cookie_value, cookie_in};
ghost use Rattle.xdr_grammar.specs.Items.{hyper};

/// Keys and what they say undo one another: so two keys of one row differ where their parts do, and keys of two rows do.
pub fn keys_tell_their_parts()
    ensures again { (parts : Parts) → HasBounds parts → parts_of (key_of parts) ≡ Some parts }
    ensures found { (key : List ℕ) (parts : Parts) → AreBytes key → parts_of key ≡ Some parts → key_of parts ≡ key }
    ensures bounds { (key : List ℕ) (parts : Parts) → AreBytes key → parts_of key ≡ Some parts → HasBounds parts }
    ensures short { (parts : Parts) → HasBounds parts → length (key_of parts) ≤ 264 }
{}

/// Inodes and their bytes undo one another. An inode has at most 1,113 bytes.
pub fn values_tell_their_inodes()
    ensures head { Laws head }
    ensures again { (inode : Inode) → Fits inode → inode_of (value_of inode) ≡ Some inode }
    ensures found { (value : List ℕ) (inode : Inode) → AreBytes value → inode_of value ≡ Some inode → value_of inode ≡ value }
    ensures fits { (value : List ℕ) (inode : Inode) → AreBytes value → inode_of value ≡ Some inode → Fits inode }
    ensures short { (inode : Inode) → Fits inode → length (value_of inode) ≤ 1113 }
{}

/// The values of the other records undo one another with what they say.
pub fn values_tell_their_rows()
    ensures first { Laws first }
    ensures name { Laws name }
    ensures extent { Laws extent }
    ensures times { Laws times }
    ensures cookie { (row : CookieRow) → hyper.Fits row.fileid → length row.name ≤ longest_name
        → cookie_in (cookie_value row) ≡ Some row }
{}
