mod temporaries;
