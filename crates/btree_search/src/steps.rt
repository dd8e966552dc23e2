//! Pages of a tree, as a walk takes them.

ghost use Rattle.std.specs.Prelude.{◌≡◌, ◌<◌, length, IfOk, IfErr};
ghost use Rattle.pair_types.specs.PageState.{Reads};
ghost use Rattle.pair_types.specs.declared.slot.Slot.{Slot};
ghost use Rattle.pair_types.specs.declared.fault.PairFault.TheVariants.{Odd};
ghost use Rattle.btree_page.specs.Content.{Content};
ghost use Rattle.btree_search.specs.Found.{OnlyReads, HasCause};
ghost use Rattle.btree_search.specs.Walk.{IsShown, LeadsAt, HasNoChild, IsChildPage};

use btree_page::{Cell, PageView};
use pair_types::{Page, Pages, PairFault, Slot};

/// The page in a slot, which shares the bytes. It writes nothing.
pub fn load<G: Pages>(pages: &mut G, slot: Slot) -> Result<Page, PairFault>
    ensures page { IfOk result (λ page. Reads (G.state pages.old) (G.state pages.new) slot page) }
    ensures only_reads { OnlyReads (G.state pages.old) (G.state pages.new) }
    ensures fault { IfErr result (λ fault. HasCause (G.state pages.old) (G.state pages.new) ⊥ fault) }
{
    match pages.read(slot) {
        Ok(page) => Ok(page.copy()?),
        Err(fault) => Err(PairFault::Page(fault)),
    }
}

/// A view of a page of a level within these bounds, or `Odd` where there is none.
pub fn view_of(page: &Page, least: u32, most: u32) -> Result<PageView<'_>, PairFault>
    ensures shown { IfOk result (λ view. IsShown least most page.now view) }
    ensures odd { IfErr result (λ fault. fault ≡ Odd) }
    ensures not_shown { IfErr result (λ fault. (content : Content) → IsShown least most page.now content → ⊥) }
{
    let view = match PageView::of(page.as_slice()) {
        Ok(view) => view,
        Err(_) => return Err(PairFault::Odd),
    };
    if view.level() < least || view.level() > most {
        return Err(PairFault::Odd);
    }
    Ok(view)
}

/// The child to which a cell leads, or `Odd` where it leads to none.
pub fn child_at(view: &PageView<'_>, i: usize) -> Result<Slot, PairFault>
    ensures child { IfOk result (λ child. LeadsAt view.now.cells i child) }
    ensures odd { IfErr result (λ fault. fault ≡ Odd) }
    ensures not_there { IfErr result (λ fault. (child : Slot) → LeadsAt view.now.cells i child → ⊥) }
{
    match view.cell(i) {
        Some(Cell::Inner { child, .. }) => Ok(child),
        _ => Err(PairFault::Odd),
    }
}

/// The page of the child to which a cell leads.
pub(crate) fn load_child<G: Pages>(
    pages: &mut G,
    view: &PageView<'_>,
    i: usize,
) -> Result<Page, PairFault>
    ensures page { IfOk result (λ page. IsChildPage (G.state pages.old) (G.state pages.new) view.now.cells i page) }
    ensures only_reads { OnlyReads (G.state pages.old) (G.state pages.new) }
    ensures fault { IfErr result (λ fault.
        HasCause (G.state pages.old) (G.state pages.new) (HasNoChild view.now.cells i) fault) }
{
    match child_at(view, i) {
        Ok(slot) => load(pages, slot),
        Err(fault) => Err(fault),
    }
}
