// Configurations: subjects at work, the fresh start, validity, the yes/no for a pool.
pub(crate) mod answers;
pub(crate) mod shares;
pub(crate) mod starts;
pub(crate) mod subjects;
pub(crate) mod valid;
