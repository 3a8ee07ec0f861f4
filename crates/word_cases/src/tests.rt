use cell_base::Items;
use choice_stream::{ListWords, SeedWords};
use history_book::Words;
use std::test::Fail;

fn first_words(seed: u64, stream: u64) -> [u32; 4] {
    let mut words = SeedWords::new(seed, stream);
    [words.next(), words.next(), words.next(), words.next()]
}

#[test]
fn gives_the_words_of_a_seed(rt: HostRuntime) {
    assert_eq!(rt;
        first_words(0, 0),
        [2_917_185_654, 2_419_978_656, 3_848_953_152, 683_509_331]
    );
    assert_eq!(rt;
        first_words(7, 0),
        [3_118_702_321, 1_150_829_157, 816_813_796, 231_462_414]
    );
    assert_eq!(rt;
        first_words(7, 1),
        [4_149_969_449, 4_234_461_783, 1_222_979_498, 1_102_806_579]
    );
    assert_eq!(rt;
        first_words(u64::MAX, 63),
        [3_449_086_562, 3_399_643_775, 459_222_169, 3_982_694_137]
    );
}

// A block of the cipher has 16 words.
#[test]
fn goes_on_over_blocks(rt: HostRuntime) {
    let mut words = SeedWords::new(7, 1);
    for _ in 0..999u32 {
        let _ = words.next();
    }
    assert_eq!(rt; words.next(), 3_419_874_133);
}

#[test]
fn gives_a_list_and_then_zeros(rt: HostRuntime) -> Result<(), Fail> {
    let alloc = rt.alloc();
    let mut words = ListWords::new(Items::from_slice(alloc, &[5, 0, 4_294_967_295])?);
    assert_eq!(rt;
        [
            words.next(),
            words.next(),
            words.next(),
            words.next(),
            words.next()
        ],
        [5, 0, 4_294_967_295, 0, 0]
    );
    Ok(())
}
