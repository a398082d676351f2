use scfs_base::Coefficients;

/// What an upload is sealed with: the key of its contents, and the coefficients of the sharing of that key.
#[derive(Clone, Copy, Debug, PartialEq, Eq)]
pub struct Draw {
    pub key: [u8; 32],
    pub coefficients: Coefficients,
}
