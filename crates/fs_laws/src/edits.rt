//! What edits of trees and of contents show.

ghost use Rattle.std.specs.Prelude.{◌≡◌, ◌≢◌, ℕ, ◌+◌, ◌≤◌, ◌<◌, List, length, slice_index_or, Some, option_map, Ok};
ghost use Rattle.nfs3_types.specs.declared.args.SetAttrArgs.{SetAttrArgs};
ghost use Rattle.nfs3_types.specs.declared.body.Body.TheVariants.{SetAttr};
ghost use Rattle.nfs3_types.specs.declared.cred.Cred.{Cred};
ghost use Rattle.nfs3_types.specs.declared.moment.Moment.{Moment};
ghost use Rattle.fs_rules.specs.declared.place.Place.TheVariants.{Live, Kept};
ghost use Rattle.fs_rules.specs.Attributes.{apply_sattr, wcc_of};
ghost use Rattle.fs_rules.specs.Checks.{Done, find_object};
ghost use Rattle.fs_rules.specs.Edits.{edit_node, resized, written};
ghost use Rattle.fs_rules.specs.Places.{Object, attributes, object_by, shown};
ghost use Rattle.fs_rules.specs.Setting.{set_attr};
ghost use Rattle.fs_rules.specs.Tree.{Node, Tree};

/// Behind an edit of a live node, the edited node is shown at its number, and all else as it was; two edits of
/// one node are one.
#[tactic(auto, using(crate::proofs::Shown::shown_here, crate::proofs::Shown::shown_elsewhere, crate::proofs::Shown::shown_kept, crate::proofs::Shown::twice))]
pub fn edits_show_one_node()
    ensures here { (t : Tree) (fileid : ℕ) (edit : Node → Node) →
        shown (edit_node fileid edit t) (Live fileid)
        ≡ option_map (λ n. attributes t (object_by (Live fileid) (edit n))) (t.nodes fileid) }
    ensures elsewhere { (t : Tree) (fileid q : ℕ) (edit : Node → Node) → q ≢ fileid →
        shown (edit_node fileid edit t) (Live q) ≡ shown t (Live q) }
    ensures kept { (t : Tree) (fileid number q : ℕ) (edit : Node → Node) →
        shown (edit_node fileid edit t) (Kept number q) ≡ shown t (Kept number q) }
    ensures twice { (t : Tree) (fileid : ℕ) (f g : Node → Node) →
        edit_node fileid f (edit_node fileid g t) ≡ edit_node fileid (λ n. f (g n)) t }
{}

/// A content that is given a size has up to there the bytes that it had, and zeros behind them.
#[tactic(auto, using(crate::proofs::Bytes::resized_below, crate::proofs::Bytes::resized_behind, crate::proofs::Bytes::resized_long))]
pub fn bytes_of_a_resized_content()
    ensures below { (size k : ℕ) (content : List ℕ) → k < size →
        slice_index_or (resized size content) k 0 ≡ slice_index_or content k 0 }
    ensures behind { (size k : ℕ) (content : List ℕ) → size ≤ k →
        slice_index_or (resized size content) k 0 ≡ 0 }
    ensures long { (size : ℕ) (content : List ℕ) → length (resized size content) ≡ size }
{}

/// A content that is written has at the offset what was written, and before it and behind it what it had.
#[tactic(auto, using(crate::proofs::Bytes::written_before, crate::proofs::Bytes::written_within, crate::proofs::Bytes::written_behind))]
pub fn bytes_of_a_written_content()
    ensures before { (offset k : ℕ) (bytes content : List ℕ) → k < offset →
        slice_index_or (written offset bytes content) k 0 ≡ slice_index_or content k 0 }
    ensures within { (offset k : ℕ) (bytes content : List ℕ) → k < length bytes →
        slice_index_or (written offset bytes content) (offset + k) 0 ≡ slice_index_or bytes k 0 }
    ensures behind { (offset k : ℕ) (bytes content : List ℕ) → offset + length bytes ≤ k →
        slice_index_or (written offset bytes content) k 0 ≡ slice_index_or content k 0 }
{}

/// A SETATTR that is OK tells the attributes before, and after it those with what was asked for.
#[tactic(auto, using(crate::proofs::Told::set_attr_tells))]
pub fn set_attr_tells_what_it_set()
    ensures { (t : Tree) (cred : Cred) (a : SetAttrArgs (List ℕ)) (now : Moment) (o : Object) (d : Done) →
        find_object t a.object ≡ Ok o → set_attr t cred a now ≡ Ok d →
        d.body ≡ SetAttr (wcc_of (Some (attributes t o)) (Some (apply_sattr (attributes t o) a.attributes now))) }
{}
