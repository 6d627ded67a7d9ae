// rust: no file: the crate has the macros of the original
//! `eco_vec!`.

/// Makes a vector of the listed elements, of `n` clones of one element, or of none. Gives a
/// `Result` whose error is an `EcoError`.
///
/// It takes the allocator first, as std's `vec!` does: `eco_vec![in alloc; 1, 2]`, `eco_vec![in
/// alloc; 0; n]`, `eco_vec![in alloc]`.
#[macro_export]
macro_rules! eco_vec {
    (in $alloc:expr $(;)?) => {
        Ok::<_, $crate::EcoError>($crate::EcoVec::new($alloc))
    };
    (in $alloc:expr; $value:expr; $n:expr) => {
        $crate::EcoVec::from_elem($alloc, $value, $n).map_err(|rejected| rejected.error)
    };
    (in $alloc:expr; $($value:expr),+ $(,)?) => {
        $crate::EcoVec::from_array($alloc, [$($value),+]).map_err(|rejected| rejected.error)
    };
}
