//! That a guest sums on both sides: the line of a soak has the sum of the words that its source wrote.

use soak_runs::soak_line;
use std::alloc::Global;
use std::test::Fail;

/// The line of so many pages: a bundle for each page, one for each of three states and a start token,
/// and the sum of the first words of the first 100 pages.
fn line_of(alloc: Global, pages: u16) -> Result<String, Fail> {
    let bundles = u32::from(pages) + 4;
    let mut word = u64::from(pages);
    let mut sum = 0u64;
    for page in 0..pages {
        if page < 100 {
            sum = sum.wrapping_add(word);
        }
        word = word
            .wrapping_mul(6_364_136_223_846_793_005)
            .wrapping_add(1_442_695_040_888_963_407);
    }
    Ok(format!(in alloc; "soak {pages} bundles {bundles} sum {sum}\n")?)
}

const PAGES: [u16; 2] = [1, 101];

#[test]
fn sums_the_words_of_its_pages(rt: HostRuntime) -> Result<(), Fail> {
    for pages in PAGES {
        let line = soak_line(rt.alloc(), pages)?;
        assert_eq!(rt;
            line.as_slice(),
            line_of(rt.alloc(), pages)?.as_bytes(),
            "{pages} pages"
        );
    }
    Ok(())
}
