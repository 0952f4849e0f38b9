// Input pools: the entries of a subject in order of arrival, and what the steps do with them.
pub(crate) mod changes;
pub(crate) mod entries;
pub(crate) mod rows;
pub(crate) mod searches;
pub(crate) mod valid;
