/// Ids, counts and the numbers of pieces are below this, as `number_limit` says: each fits 32 bits. (Chosen here.)
pub const NUMBER_LIMIT: u64 = 1 << 32;
