// The timed call that checks a whole store.
use store::Store;

// The sum, with what the check answers: 1 for yes, and 2 for no. A refused one adds nothing, and so shows.
pub fn verify_whole(store: &Store, sum: u32) -> u32 {
    match store.verify() {
        Ok(true) => sum.wrapping_add(1),
        Ok(false) => sum.wrapping_add(2),
        Err(_) => sum,
    }
}
