mod damage;
mod long;
mod rows;
mod stops;
mod support;
