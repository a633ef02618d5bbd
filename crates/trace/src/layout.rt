// Where a body begins behind its kind, and where in a body each field but the first begins.
pub(crate) const BODY: usize = 1;

pub(crate) const NODE_WEIGHT: usize = 1;

pub(crate) const MODEL_RSEQIOPS: usize = 8;

pub(crate) const MODEL_RRANDIOPS: usize = 16;

pub(crate) const MODEL_WBPS: usize = 24;

pub(crate) const MODEL_WSEQIOPS: usize = 32;

pub(crate) const MODEL_WRANDIOPS: usize = 40;

pub(crate) const BIO_FLAGS: usize = 1;

pub(crate) const BIO_ID: usize = 2;

pub(crate) const BIO_SECTOR: usize = 6;

pub(crate) const BIO_BYTES: usize = 14;

pub(crate) const WEIGHT_WEIGHT: usize = 1;
