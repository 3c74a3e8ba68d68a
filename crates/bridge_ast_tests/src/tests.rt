mod alias_ends;
mod declared;
mod nodes;
mod resolution;
mod scopes;
