// Pages of the number 0.
use fumen_pages::Page;
use sample_pages::sample_pages;
use srs::Piece;

/// Whether there is one page only, with an O and the flag of the first page.
fn is_first_page(pages: &[Page]) -> bool {
    match pages {
        [page] => page.colour
            && page
                .operation
                .is_some_and(|placed| placed.piece == Piece::O),
        _ => false,
    }
}

#[test]
fn the_first_page_of_0(rt: HostRuntime) {
    let pages = sample_pages(rt.alloc(), 0, 1).expect(&rt, "memory");
    assert!(rt; is_first_page(&pages));
}
