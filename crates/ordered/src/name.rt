// A name: any eight bytes, in byte order.
#[derive(Clone, Copy, Debug, PartialEq, Eq, PartialOrd, Ord)]
pub struct Name {
    pub bytes: [u8; 8],
}
