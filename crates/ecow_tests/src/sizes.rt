//! How many bytes values have.
use ecow::{EcoBytes, EcoString, EcoVec};
use ecow_bytes::SmallBytes;
use std::mem::size_of;

const _: () = prove!(size_of::<EcoVec<u64>>() == 8);

const _: () = prove!(size_of::<EcoVec<EcoString>>() == 8);

const _: () = prove!(size_of::<Option<EcoVec<u64>>>() == 16);

const _: () = prove!(size_of::<EcoBytes>() == 16);

const _: () = prove!(size_of::<EcoString>() == 16);

const _: () = prove!(size_of::<SmallBytes<0>>() == 16);

const _: () = prove!(size_of::<SmallBytes<16>>() == 24);

const _: () = prove!(size_of::<SmallBytes<23>>() == 24);
