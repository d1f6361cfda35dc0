// Nothing stands here: a function that is lent a value needs no more than its contract. The crate is its name, which callers may list.
